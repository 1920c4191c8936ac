//! Migrations that are cut off, by a disk that stops or by want of memory: the old ledger is left
//! or the new one, whole, as the audit of the next opening finds.

use super::fixture::in_memory;
use super::stored::{Migrated, Opened, brought, opened};
use migrate::MigrateFault;
use records::Unavailable;
use sqlite::{Error, Files};
use sqlite_disk::{Crash, Disk, Fuse, Memory};
use std::alloc::Global;
use std::process::Abort;
use std::test::Fail;
use store::OpenFault;

// No count of a test's calls comes so far.
const NEVER: u64 = 1_000_000;

const DISK_FAILED: Migrated = Err(MigrateFault::Unavailable(Unavailable::Disk));

const NO_MEMORY: Migrated = Err(MigrateFault::Unavailable(Unavailable::Memory));

// Which of the two files is on a disk that stops.
#[derive(Clone, Copy)]
enum Stopping {
    Log,
    Database,
}

// What an opening and a migration to the current version answer, and the files.
fn attempted<D: Disk + Drop>(alloc: Global, files: Files<D>) -> (Migrated, Files<D>) {
    match opened(alloc, files) {
        Ok(ledger) => {
            let (answer, _, files) = brought(alloc, ledger, 3);
            (answer, files)
        }
        Err((fault, files)) => (Err(fault.into()), files),
    }
}

// An opening after a crash.
fn reopened<D: Crash + Drop>(alloc: Global, mut files: Files<D>) -> Opened<D> {
    files.log.crash();
    files.db.crash();
    opened(alloc, files)
}

// What a migration answers, and the version that is there after a crash.
fn stopped<D: Crash + Drop>(alloc: Global, files: Files<D>) -> Result<(Migrated, u32), Fail> {
    let (answer, files) = attempted(alloc, files);
    let (version, _files) = version_of(reopened(alloc, files))?;
    Ok((answer, version))
}

// The version of an opened ledger, and its files.
fn version_of<D: Disk + Drop>(opened: Opened<D>) -> Result<(u32, Files<D>), Fail> {
    match opened {
        Ok(ledger) => Ok((ledger.schema(), ledger.close())),
        Err((fault, _)) => Err(fault.into()),
    }
}

// The ledger in memory, of which one file is on a disk that stops after so many calls.
fn stopping_after(
    alloc: Global,
    stopping: Stopping,
    calls: u64,
) -> Result<Files<Fuse<Memory>>, Error> {
    let files = in_memory(alloc)?;
    let (log, db) = match stopping {
        Stopping::Log => (calls, NEVER),
        Stopping::Database => (NEVER, calls),
    };
    Ok(Files {
        log: Fuse::new(files.log, log),
        db: Fuse::new(files.db, db),
    })
}

// The disk of a ledger's log or of its file stops after so many calls, and after ever more, until
// the migration comes through: the old ledger is left or the new one, and the new one where that
// was told.
fn stops(rt: &impl Abort, alloc: Global, stopping: Stopping) -> Result<(), Fail> {
    let mut has_left_old = false;
    for step in 0..200 {
        let calls = 3 * step;
        let (answer, version) = stopped(alloc, stopping_after(alloc, stopping, calls)?)?;
        if answer.is_ok() {
            assert!(rt; has_left_old && version == 3);
            return Ok(());
        }
        assert!(rt;
            answer == DISK_FAILED && (version == 1 || version == 3),
            "after {calls} calls"
        );
        has_left_old = has_left_old || version == 1;
    }
    Err("it never came through".into())
}

#[test]
fn a_stop_leaves_one_of_both(rt: HostRuntime) -> Result<(), Fail> {
    stops(&rt, rt.alloc(), Stopping::Log)?;
    stops(&rt, rt.alloc(), Stopping::Database)
}

// An opening after a crash; where it wants memory, the next one has it.
fn reopened_again<D: Crash + Drop>(alloc: Global, files: Files<D>) -> Opened<D> {
    match reopened(alloc, files) {
        Err((OpenFault::Unavailable(_), files)) => reopened(alloc, files),
        told => told,
    }
}

// What a migration answers, the version that is there after a crash, and the files.
fn tried<D: Crash + Drop>(
    alloc: Global,
    files: Files<D>,
) -> Result<(Migrated, u32, Files<D>), Fail> {
    let (answer, files) = attempted(alloc, files);
    let (version, files) = version_of(reopened_again(alloc, files))?;
    Ok((answer, version, files))
}

// To be run with each allocation refused in turn (`make alloc`): a migration that wants memory
// answers so and leaves the old ledger, and the next one comes through. A disk in memory that wants
// memory has failed, and may have the new ledger.
#[test]
fn survives_want_of_memory(rt: HostRuntime) -> Result<(), Fail> {
    let alloc = rt.alloc();
    let Ok(files) = in_memory(alloc) else {
        return Ok(());
    };
    let (answer, version, files) = tried(alloc, files)?;
    if answer.is_ok() {
        assert_eq!(rt; version, 3);
        return Ok(());
    }
    assert!(rt;
        answer == NO_MEMORY && version == 1
            || answer == DISK_FAILED && (version == 1 || version == 3)
    );
    let (again, newer, _files) = tried(alloc, files)?;
    assert_eq!(rt; (again, newer), (Ok(()), 3));
    Ok(())
}
