//! Tests of whole runs and of connections, over lists and over disks in memory.
#![tactic(auto)]

#[cfg(test)]
mod tests;
