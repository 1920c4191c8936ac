//! The audit of a ledger that is opened, and what it notes.

use crate::contents::Contents;
use audit::AuditFault;
use reply_marks::latest_clock;
use rows::AllRows;
use std::alloc::Global;
use std::cell::Cell;
use store::{Audit, FullAudit};

/// The whole audit, which notes what the file has that was audited last.
#[derive(Drop)]
pub(crate) struct CountingAudit {
    contents: Cell<Contents>,
}

impl CountingAudit {
    pub(crate) fn new() -> CountingAudit {
        let contents = Cell::new(Contents::default());
        CountingAudit { contents }
    }

    /// What the file has: nothing as long as none was audited.
    pub(crate) fn contents(&self) -> Contents {
        self.contents.get()
    }

    /// The latest clock of its tenants, in nanoseconds.
    pub(crate) fn clock(&self) -> u64 {
        self.contents().clock
    }
}

impl Audit for CountingAudit {
    fn audit(&self, alloc: Global, rows: &AllRows) -> Result<(), AuditFault> {
        self.contents.set(contents_of(rows));
        FullAudit.audit(alloc, rows)
    }
}

// What a file with these rows has.
fn contents_of(rows: &AllRows) -> Contents {
    let (mut accounts, mut transfers) = (0u64, 0u64);
    for tenant in &rows.tenants {
        accounts = accounts.saturating_add(tenant.rows.accounts.len() as u64);
        transfers = transfers.saturating_add(tenant.rows.transfers.len() as u64);
    }
    Contents {
        tenants: rows.directory.len() as u64,
        accounts,
        transfers,
        clock: latest_clock(rows),
    }
}
