//! Tests of `store`, `migrate` and `metered_disk`, on disks in memory that may stop or fail, and at
//! a path.
#![tactic(auto)]

#[cfg(test)]
mod tests;
