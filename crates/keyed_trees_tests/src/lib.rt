//! Tests of `keyed_trees`, over a store in memory.
#![tactic(auto)]

#[cfg(test)]
mod tests;
