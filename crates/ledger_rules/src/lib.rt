//! The rules that a ledger's tables state, said of their rows and keys without SQL.
#![tactic(auto)]

pub mod laws;
