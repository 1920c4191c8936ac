//! The rows of one tenant's ledger: as a file has them, in the types of the model, which of them a
//! machine prescribes, and how they move when it does. The functions without a body are laws.
#![tactic(auto)]

mod account_cells;
mod all_rows;
mod balance_cells;
mod balance_row;
mod cell;
mod file_laws;
mod history_cells;
mod history_row;
mod laws;
mod status_cells;
mod status_row;
mod table_laws;
mod tenant_rows;
mod transfer_cells;

pub use account_cells::AccountCells;
pub use all_rows::{AllRows, DirectoryRow, TenantOfDigest};
pub use balance_cells::BalanceCells;
pub use balance_row::BalanceRow;
pub use file_laws::{cells_tell_rows, rows_fit};
pub use history_cells::HistoryCells;
pub use history_row::HistoryRow;
pub use laws::{account_rows, clock_rows, failed_rows, same_rows, single_rows, transfer_rows};
pub use status_cells::StatusCells;
pub use status_row::StatusRow;
pub use table_laws::{
    changes_keep_same_rows, found_by_key, keys_are_distinct, read_in_order, rows_stand_in_order,
    shared_by_tenants,
};
pub use tenant_rows::TenantRows;
pub use transfer_cells::TransferCells;
