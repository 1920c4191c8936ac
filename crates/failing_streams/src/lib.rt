//! Readers, writers and sinks that are slow, narrow or fail, for tests.
#![tactic(auto)]

mod streams;
mod taken_rows;

pub use streams::{Narrow, Pieces};
pub use taken_rows::TakenRows;
