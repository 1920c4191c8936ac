//! What a ledger asks of the tables that keep it, whatever engine they stand on.
#![tactic(auto)]

mod connection;
mod tables;

pub use tables::LedgerTables;
