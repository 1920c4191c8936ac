//! FILE-sums in a file.
#![tactic(auto)]

mod beside;
mod kept;
mod place;
#[cfg(test)]
mod tests;

pub use beside::{Access, make_beside, open_beside, read_beside, remove_beside};
pub use kept::KeptSums;
pub use place::Place;
