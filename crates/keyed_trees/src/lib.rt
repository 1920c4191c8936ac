//! Tables of rows with unique keys, as trees of a store. Rows are found by a key or in a range of
//! one, added, replaced and removed, in transactions that have marks to go back to.
#![tactic(auto)]

mod adding;
mod buffers;
mod checking;
mod columns;
mod finding;
mod layout;
mod marks;
mod next_rowids;
mod range;
mod scanning;
mod setting;
mod tables;
mod transaction;

pub use columns::{Columns, write_values};
pub use layout::{Key, Layout, Record};
pub use range::Range;
pub use tables::Tables;
pub use transaction::{Committed, Transaction};
