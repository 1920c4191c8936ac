//! The mark: the latest clock in any reply to a batch.
//!
//! A reply to a batch has the tenant's clock, and there is such a reply only once the batch is
//! committed. The clock is appended to FILE-sums before the reply goes out, or on a slow volume up to
//! a tenth of a second later. So a ledger whose clocks are all below the mark lacks a commit that was
//! answered.
#![tactic(auto)]

mod beside;
mod clock;
mod finding;
mod latest;
mod marking;
mod marks;
mod pace;
#[cfg(test)]
mod tests;
mod trouble;

pub use clock::{clock_in, latest_told};
pub use finding::{Found, forget_beside, noted_beside};
pub use latest::latest_clock;
pub use marking::{mark_clock, mark_reply};
pub use marks::Marks;
