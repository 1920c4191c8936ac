//! The operator's side of a command: its words and its key, what it asks of the service that has a
//! file, and the statements that it writes.
#![tactic(auto)]

mod asked;
mod calling;
mod extracts;
mod given_key;
mod served_statements;
mod statements;

pub use asked::Asked;
pub use calling::{ask, ask_served, desk_path, real_path};
pub use given_key::GivenKey;
pub use served_statements::{First, ask_first, write_served};
pub use statements::write_asked;
