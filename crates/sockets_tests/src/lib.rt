//! Tests of `sockets`, `control` and `copies`: clients and callers over sockets of this machine,
//! and copies of its files, in one thread.
#![tactic(auto)]

#[cfg(test)]
mod tests;
