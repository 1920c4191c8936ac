//! Letting go of a ledger's files, so that the database file alone is the ledger.

use crate::copied::copy_fault;
use crate::ended::Held;
use crate::kept::Kept;
use chain::InUse;
use command_texts::Fault;
use copies::write_back;
use sqlite::Files;
use sqlite_disk::Disk;
use std::hash::{BuildHasher, RandomState};
use store::Store;

/// Lets go of the files that were served, with the log written back. Where their disk has failed
/// they are left as they are. A log that cannot be written back still belongs to the file, and a line
/// on standard error says so.
pub(crate) fn leave_served<D: Disk + Drop>(
    rt: &HostRuntime,
    db: &str,
    kept: Kept<InUse<Store<D>>>,
) {
    let Kept::Open(store) = kept else {
        return;
    };
    if store.backend.is_ready() && leave(rt, store.into_backend().close()).is_err() {
        let _ = rt.eprintln(format_args!("{db}-wal still has commits: it belongs to {db}"));
    }
}

/// Lets go of what a command has, with the log written back if it has changed the file. A log that
/// cannot be written back stays beside its file.
pub(crate) fn leave_held<D: Disk + Drop>(rt: &HostRuntime, held: Held<D>, changed: bool) {
    if !changed {
        return;
    }
    let _left = match held {
        Held::Opened(store) => leave(rt, store.into_backend().close()),
        Held::Migrated(ledger) => leave(rt, ledger.close()),
        Held::Asked(_answer) => Ok(()),
        Held::Damaged(_files) => Ok(()),
        Held::Nothing => Ok(()),
    };
}

fn leave<D: Disk + Drop>(rt: &HostRuntime, files: Files<D>) -> Result<(), Fault> {
    if !files.may_be_used() {
        return Err(Fault::Unavailable);
    }
    let Ok(random) = RandomState::new(rt) else {
        return Err(Fault::Unavailable);
    };
    match write_back(rt.alloc(), files, random.hash_one(&0u8)) {
        Ok(_files) => Ok(()),
        Err(fault) => Err(copy_fault(fault)),
    }
}
