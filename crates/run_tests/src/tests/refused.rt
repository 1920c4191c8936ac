//! A run in the middle of which an opening is refused, since memory lacks for the audit. Nothing is
//! lost by it: what was answered before stands behind the next opening.

use super::disks::{NEVER, TestDisk, TestStore, new_store, shut};
use super::scripts::runs;
use audit::AuditFault;
use records::Unavailable;
use rows::AllRows;
use std::alloc::Global;
use std::process::Abort;
use std::test::Fail;
use store::{Audit, OpenFault, Refused};

/// An audit that has no memory to look at the rows.
struct NoMemory;

impl Audit for NoMemory {
    fn audit(&self, _alloc: Global, _rows: &AllRows) -> Result<(), AuditFault> {
        Err(AuditFault::Memory)
    }
}

/// A transfer that is made, and one that fails for good.
const BEFORE: &str = "tenant 0 = added
0@0 base = 0@1 0@2 0@3 0@4
0@0 transfers 100 1 2 10; 101 9 2 5 = 0@5 44@6";

/// While the ledgers are not open nothing is done, and behind the next opening both are as before.
const BEHIND: &str = "0@0 transfers 102 1 2 10 = unavailable 503 Service Unavailable
tenant 1 = unavailable
key 1 of 0 = unavailable
open = opened
tenant 1 named 0 = name_taken
key 1 of 5 = no_tenant
0@0 transfers 100 1 2 10; 101 9 2 5; 102 1 2 10 = 18@7 60@8 0@9";

/// The opening of a store that is refused for want of memory, between two parts of a run.
fn goes_on(rt: &impl Abort, alloc: Global, store: &mut TestStore<TestDisk>) -> Result<(), Fail> {
    runs(rt, alloc, store, BEFORE, false)?;
    let fault = OpenFault::Unavailable(Unavailable::Memory);
    let stands = true;
    assert_eq!(rt;
        store.backend.reopen(&NoMemory),
        Err(Refused { fault, stands })
    );
    runs(rt, alloc, store, BEHIND, false)
}

#[test]
fn a_run_goes_on_behind_an_audit_without_memory(rt: HostRuntime) -> Result<(), Fail> {
    let mut store = new_store(rt.alloc(), NEVER, NEVER)?;
    let ended = goes_on(&rt, rt.alloc(), &mut store);
    shut(store);
    ended
}
