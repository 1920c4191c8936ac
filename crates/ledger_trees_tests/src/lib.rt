//! Both engines of a ledger's tables, given the same calls: the texts of SQL, and trees.
#![tactic(auto)]

#[cfg(test)]
mod tests;
