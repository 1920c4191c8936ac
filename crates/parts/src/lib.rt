//! Statements in parts: each is read in a batch of its own, and is a chunk of the reply's body.
#![tactic(auto)]

mod laws;
mod piece;
mod rest;
mod rows;

pub use laws::{begins_whole, rests_stay};
pub use piece::read_piece;
pub use rest::{Part, Rest};
pub use rows::row_of;
