//! Tests of `commands`, over files and sockets of this machine and over stores
//! in memory.
#![tactic(auto)]

#[cfg(test)]
mod tests;
