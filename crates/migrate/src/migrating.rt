ghost use Rattle.std.specs.Prelude.{◌≡◌, ◌≢◌, ◌<◌, ◌≤◌, ◌↔◌, Err, IfOk, IsTrue};
ghost use Rattle.records.specs.declared.unavailable.Unavailable.TheVariants.{Disk as DiskFailed};
ghost use Rattle.sqlite.specs.Held.{state};
ghost use Rattle.stored_ledgers.specs.Looks.{ReadsAtRest};
ghost use Rattle.migrate.specs.Ledgers.{IsMigratable};
ghost use Rattle.migrate.specs.Older.{CanBeRaised};
ghost use Rattle.migrate.specs.Migrating.{IsBelow, LeavesAudited, MigratesLedger, RaisesLedger, RefusesNewer};
ghost use Rattle.migrate.specs.Raising.{RaisesOrTells};

use crate::raising::Upgrade;
use crate::{LedgerOfVersion, MigrateFault, rows_in_version};
use audit::check;
use openings::whole_rows::rows_in;
use records::Unavailable;
use rows::AllRows;
use sqlite::{Alter, Connection};
use sqlite_disk::Disk;
use std::alloc::Global;
use stored_ledgers::batches::DueSets;

/// Brings a ledger to this version of the schema, in one transaction: each tenant's machine stays,
/// and its rows are those that it prescribes there, with no id failed. The version that the ledger
/// has is no change. After a fault the ledger is as it was; after a fault of the disk, or a crash
/// at any moment, it or the new one is there, whole. From a fault of the disk on it is not
/// answered.
pub fn migrate<D: Disk + Drop>(
    alloc: Global,
    ledger: &mut LedgerOfVersion<D>,
    to: u32,
) -> Result<(), MigrateFault>
    requires migratable { IsMigratable ledger.old }
    requires known { to ≤ 3 }
    ensures tells { RefusesNewer to ledger.old ledger.new result }
    ensures migratable { IsMigratable ledger.new }
    ensures raises { ledger.old.version < to → RaisesLedger to ledger.old ledger.new result }
    ensures migrates { MigratesLedger to ledger.old ledger.new result }
{
    if to < ledger.version {
        return Err(MigrateFault::NewerSchema);
    }
    if to == ledger.version {
        return Ok(());
    }
    migrate_older(alloc, ledger, to)
}

/// The same of a ledger of an older version.
fn migrate_older<D: Disk + Drop>(
    alloc: Global,
    ledger: &mut LedgerOfVersion<D>,
    to: u32,
) -> Result<(), MigrateFault>
    requires { IsBelow to ledger.old }
    ensures no_newer { result ≢ Err MigrateFault.NewerSchema }
    ensures migratable { IsMigratable ledger.new }
    ensures raises { RaisesLedger to ledger.old ledger.new result }
    ensures migrates { MigratesLedger to ledger.old ledger.new result }
{
    if !ledger.ready {
        return Err(MigrateFault::Unavailable(Unavailable::Disk));
    }
    let raised = raise_rows(alloc, &mut ledger.conn, ledger.version, to);
    ledger.ready = !is_disk_fault(&raised);
    match raised {
        Ok(due) => {
            ledger.due = due;
            ledger.version = to;
            Ok(())
        }
        Err(fault) => Err(fault),
    }
}

/// The same over a database that is open, with what is due of each tenant.
fn raise_rows<S: Alter>(
    alloc: Global,
    conn: &mut Connection<S>,
    version: u32,
    to: u32,
) -> Result<DueSets, MigrateFault>
    requires { CanBeRaised version S.Store conn.old }
    ensures audited { LeavesAudited version
        (state S.Store conn.old) (state S.Store conn.new) result }
    ensures whole { RaisesOrTells (MigrateFault.Unavailable DiskFailed) to
        (state S.Store conn.old) (state S.Store conn.new) result }
{
    let newer = newer_rows(alloc, conn, version, to)?;
    let upgrade = Upgrade {
        alloc,
        version,
        rows: &newer,
    };
    let due = upgrade.raise(conn)?;
    Ok(due)
}

/// All rows of a ledger of an older version, as they are in this one. It only reads.
fn newer_rows<S: Alter>(
    alloc: Global,
    conn: &mut Connection<S>,
    version: u32,
    to: u32,
) -> Result<AllRows, MigrateFault>
    requires { CanBeRaised version S.Store conn.old }
    ensures audited { LeavesAudited version
        (state S.Store conn.old) (state S.Store conn.new) result }
    ensures version { IfOk result (λ newer. newer.version ≡ to) }
    ensures reads { ReadsAtRest (MigrateFault.Unavailable DiskFailed)
        (state S.Store conn.old) (state S.Store conn.new) result }
{
    let older = rows_in(alloc, conn, version)?;
    check(alloc, &older)?;
    Ok(rows_in_version(alloc, older, to)?)
}

/// Whether a fault of the disk was told.
fn is_disk_fault(answer: &Result<DueSets, MigrateFault>) -> bool
    ensures { IsTrue result ↔ (answer.now ≡ Err (MigrateFault.Unavailable DiskFailed)) }
{
    matches!(answer, Err(MigrateFault::Unavailable(Unavailable::Disk)))
}
