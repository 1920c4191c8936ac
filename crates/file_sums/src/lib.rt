//! FILE-sums, which stands beside a database file and its log. By it an opening notices that the two
//! do not belong together, or that commits which were answered are missing.
//!
//! It is a head and records behind one another, which are only ever appended. Each record ends with
//! a seal that covers it and the seal before it. What a crash has cut off, or a stranger has
//! written, is no record, and neither is anything behind it.
#![tactic(auto)]

mod bytes;
mod noted;
mod opening;
mod reading;
mod record;
mod sums;
#[cfg(test)]
mod tests;

pub use noted::{LogNoted, Noted};
pub use opening::{LogFound, Opening, is_behind, opening_of};
pub use record::Record;
pub use sums::Sums;
