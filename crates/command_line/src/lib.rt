//! The command line of `ledgerd`: its words read as one of its commands.
#![tactic(auto)]

mod app;
mod commands;
mod fault;
mod read;
mod version;

pub use commands::{Command, LEAST_ROOM, LimitWords, StatementWords};
pub use fault::LineFault;
pub use read::command;
pub use version::version_text;
