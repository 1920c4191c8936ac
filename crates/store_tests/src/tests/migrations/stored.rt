//! The ledger in some files: opened, migrated and used.

ghost use Rattle.std.specs.Prelude.{◌≤◌, IfOk};
ghost use Rattle.migrate.specs.Ledgers.{IsMigratable};
ghost use Rattle.store.specs.Stores.{IsUsable};

use super::work::goes_on;
use crate::tests::disks::WIDE;
use migrate::{LedgerOfVersion, MigrateFault, migrate};
use records::Unavailable;
use sqlite::Files;
use sqlite_disk::Disk;
use std::alloc::Global;
use std::process::Abort;
use std::test::Fail;
use store::{FullAudit, OpenFault, Store};

/// What a migration answers.
pub type Migrated = Result<(), MigrateFault>;

/// A ledger that is opened to be migrated, or why it is not, with the files.
pub type Opened<D> = Result<LedgerOfVersion<D>, (OpenFault, Files<D>)>;

/// The ledger in some files, to be migrated.
pub fn opened<D: Disk + Drop>(alloc: Global, files: Files<D>) -> Opened<D>
    ensures { IfOk result IsMigratable }
{
    if !files.may_be_used() {
        return Err((OpenFault::Unavailable(Unavailable::Disk), files));
    }
    LedgerOfVersion::open_for_migration(alloc, files, WIDE, &FullAudit)
}

/// The ledger in some files, to be used.
pub fn usable<D: Disk + Drop>(
    alloc: Global,
    files: Files<D>,
) -> Result<Store<D>, (OpenFault, Files<D>)>
    ensures { IfOk result IsUsable }
{
    if !files.may_be_used() {
        return Err((OpenFault::Unavailable(Unavailable::Disk), files));
    }
    Store::open(alloc, files, WIDE, &FullAudit)
}

/// What a migration to a version answers.
fn migrated<D: Disk + Drop>(alloc: Global, ledger: &mut LedgerOfVersion<D>, to: u32) -> Migrated
    requires migratable { IsMigratable ledger.old }
    requires known { to ≤ 3 }
    ensures { IsMigratable ledger.new }
{
    migrate(alloc, ledger, to)
}

/// Whether the ledger is served at once after a migration to a version, and the files, after it has
/// gone on where it is.
pub fn served<D: Disk + Drop>(
    rt: &impl Abort,
    alloc: Global,
    mut ledger: LedgerOfVersion<D>,
    to: u32,
) -> Result<(bool, Files<D>), Fail>
    requires migratable { IsMigratable ledger }
    requires known { to ≤ 3 }
{
    migrated(alloc, &mut ledger, to)?;
    match ledger.into_served() {
        Ok((conn, due)) => {
            let store = Store::over(alloc, conn, due, WIDE);
            Ok((true, used(rt, alloc, store)?))
        }
        Err(ledger) => Ok((false, ledger.close())),
    }
}

/// What a migration to a version answers, the version that is there then, and the files.
pub fn brought<D: Disk + Drop>(
    alloc: Global,
    mut ledger: LedgerOfVersion<D>,
    to: u32,
) -> (Migrated, u32, Files<D>)
    requires migratable { IsMigratable ledger }
    requires known { to ≤ 3 }
{
    let answer = migrated(alloc, &mut ledger, to);
    let version = ledger.schema();
    (answer, version, ledger.close())
}

/// The files, after the ledger has gone on.
pub fn used<D: Disk + Drop>(
    rt: &impl Abort,
    alloc: Global,
    mut store: Store<D>,
) -> Result<Files<D>, Fail>
    requires { IsUsable store }
{
    let went = goes_on(rt, alloc, &mut store);
    let files = store.close();
    went?;
    Ok(files)
}

/// Why a ledger was not opened, unless it was.
pub fn refusal<T: Drop, E>(opened: Result<T, E>) -> Option<E> {
    match opened {
        Ok(_opened) => None,
        Err(told) => Some(told),
    }
}
