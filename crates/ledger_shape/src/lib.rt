//! Whether the tables that a file has are those of a ledger, without reading a row.
#![tactic(auto)]

mod checks;
mod columns;
mod fits;
mod forms;
mod keys;
mod ledger;
mod references;
mod shape;
mod strangers;
mod tables;

pub use shape::{has_balances, has_lists, has_versions, is_balances, is_ledger, is_lists};
