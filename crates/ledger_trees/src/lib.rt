//! The tables of a ledger as trees of its file, with no text of SQL.
#![tactic(auto)]

mod accounts;
mod balances;
mod by_id;
mod clock;
mod directory;
mod failed_ids;
mod history;
mod ledger_trees;
mod stages;
mod statuses;
mod tables;
mod transfers;

pub use ledger_trees::LedgerTrees;
