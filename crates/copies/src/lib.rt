//! Copies of a ledger, each one file, and files whose log is written back. A ledger may be written
//! to while its copy is made.
#![tactic(auto)]

mod copying;
mod fault;
mod files;
mod names;
mod pieces;
mod places;
mod whole;

pub use copying::{Copying, Progress, copy_whole};
pub use fault::CopyFault;
pub use whole::write_back;
