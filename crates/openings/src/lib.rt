//! How the ledgers in a file come to be served: a new one is made, and all of one that is there is
//! read and looked at.
#![tactic(auto)]

pub mod auditing;
pub mod closing;
pub mod creating;
mod due_sets;
pub mod inspecting;
pub mod laws;
pub mod ledgers;
pub mod open_tables;
pub mod opened;
pub mod opening;
pub mod refused;
mod shape;
mod standing;
pub mod tables;
pub mod versions;
pub mod whole_rows;
