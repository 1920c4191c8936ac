//! What a ledger lists over trees: a tenant's accounts and transfers of a span of time, and tables
//! read whole.
#![tactic(auto)]

mod by_id;
mod files;
mod history;
mod spans;
mod tenants;
mod timed;

pub use by_id::{list_accounts, list_balances, list_failed, list_statuses, list_transfers};
pub use files::{list_clocks, list_versions};
pub use history::list_history;
pub use spans::{newest_accounts, newest_transfers, oldest_accounts, oldest_transfers};
pub use tenants::directory;
