//! The ledgers of many tenants in one database: which there are, batches of work on one, new
//! tenants, and other keys.
#![tactic(auto)]

pub mod batches;
pub mod directory;
mod due_search;
pub mod joining;
pub mod keying;
pub mod laws;
pub mod overdue;
pub mod own_keys;
pub mod probe;
mod round;
pub mod rounds;
pub mod transactions;
mod working;
