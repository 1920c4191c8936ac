//! A disk that notes which log is in use.
//!
//! A database that begins a log anew writes all of its header but the first byte, syncs, writes that
//! byte, and syncs. The disk follows these writes, and hands the new log's salt on after the last
//! sync: then a crash leaves no other log.
#![tactic(auto)]

mod files;
mod head;
mod notes;
mod noting;
#[cfg(test)]
mod tests;

pub use files::noted_files;
pub use head::HeadSeen;
pub use notes::LogNotes;
pub use noting::Noting;
