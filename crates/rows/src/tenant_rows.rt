use crate::{AccountCells, BalanceCells, HistoryCells, StatusCells, TransferCells};

/// One tenant's rows as a file has them: a list for each table with a column `tenant`, without that
/// column. The lists of tables that the file's version lacks are empty.
#[derive(Debug, Drop, PartialEq, Eq)]
pub struct TenantRows {
    /// The clock rows, in nanoseconds. A sound file has one.
    pub clocks: Vec<i64>,
    pub accounts: Vec<AccountCells>,
    pub transfers: Vec<TransferCells>,
    pub balances: Vec<BalanceCells>,
    pub statuses: Vec<StatusCells>,
    pub history: Vec<HistoryCells>,
    /// The ids of failed transfers.
    pub failed: Vec<[u8; 16]>,
}
