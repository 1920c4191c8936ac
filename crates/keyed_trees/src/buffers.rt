//! What calls write over, so that none takes memory of its own.

use sqlite_exec::work::Workspace;
use sqlite_value::row::Row;
use std::alloc::Global;

/// A workspace, and rows for an entry of a key and for a row of a table.
#[derive(Drop)]
pub(crate) struct Buffers {
    pub work: Workspace,
    pub entry: Row,
    pub row: Row,
}

impl Buffers {
    pub(crate) fn new(alloc: Global) -> Buffers {
        Buffers {
            work: Workspace::new(alloc),
            entry: Row::new(alloc),
            row: Row::new(alloc),
        }
    }
}
