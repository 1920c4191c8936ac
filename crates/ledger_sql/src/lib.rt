//! The tables in SQLite: one function for each fixed text of SQL.
#![tactic(auto)]

pub mod adding;
mod cause;
pub mod creating;
pub mod entries;
mod entry_cells;
mod entry_sink;
pub mod finding;
pub mod listing;
mod params;
mod query;
mod read;
pub mod setting;
pub mod spans;
pub mod stages;
mod table_fault;
pub mod upgrading;

pub use entry_cells::EntryCells;
pub use entry_sink::EntrySink;
pub use table_fault::TableFault;
