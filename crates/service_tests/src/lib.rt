//! Tests of `service`, `clients` and `polling`: messages of several firms over ledgers in memory,
//! and what each is told, byte by byte.
#![tactic(auto)]

#[cfg(test)]
mod tests;
