//! Tests of `ledger_sql` on real tables, in memory and in files. What a text reads or writes is
//! proved there; here it is seen that each can succeed, what the database refuses, that a keyed
//! text does not grow, and what a file looks like. And tests of `ledger_shape` on tables that
//! statements make.
#![tactic(auto)]

#[cfg(test)]
mod tests;
