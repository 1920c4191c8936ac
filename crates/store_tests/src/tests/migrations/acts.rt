//! What a test does to a ledger in some files, as data.

use super::database::{changed, connected, number};
use super::fixture::DIGEST;
use super::stored::{Migrated, brought, opened, refusal, served, usable, used};
use audit::{Damage, DamageKind};
use sqlite::{Alter, Connection, Files};
use sqlite_disk::Disk;
use std::alloc::Global;
use std::process::Abort;
use std::test::Fail;
use store::OpenFault;

pub enum Act {
    /// An ordinary opening finds an older version.
    IsOld,
    /// What a migration to a version answers, and the version after it.
    Migrates(u32, Migrated, u32),
    /// Migrated to a version it is served at once, and goes on, or it cannot be.
    Serves(u32, bool),
    /// A statement of SQL is run.
    Runs(&'static str),
    /// Each text of SQL answers a number.
    Counts(&'static [(&'static str, i64)]),
    /// It is not opened to be migrated.
    IsRefused(OpenFault),
    /// It is not, since the tenant's rows are damaged, first at place 0.
    IsDamaged(DamageKind),
    /// The transfer has expired, and the ledger goes on behind its clock.
    GoesOn,
}

/// Does it, and gives the files back.
pub fn act_on<D: Disk + Drop>(
    rt: &impl Abort,
    alloc: Global,
    files: Files<D>,
    act: &Act,
) -> Result<Files<D>, Fail> {
    match act {
        Act::IsOld => refused(rt, usable(alloc, files), OpenFault::OldSchema),
        Act::Migrates(to, answer, version) => {
            migrates(rt, alloc, files, *to, &(*answer, *version))
        }
        Act::Serves(to, want) => serves(rt, alloc, files, *to, *want),
        Act::Runs(sql) => Ok(changed(alloc, files, &[sql])?),
        Act::Counts(texts) => counted(rt, alloc, files, texts),
        Act::IsRefused(fault) => refused(rt, opened(alloc, files), *fault),
        Act::IsDamaged(kind) => {
            let damage = Damage {
                kind: *kind,
                digest: DIGEST,
                place: 0,
            };
            refused(rt, opened(alloc, files), OpenFault::Damaged(damage))
        }
        Act::GoesOn => went_on(rt, alloc, files),
    }
}

fn counted<D: Disk + Drop>(
    rt: &impl Abort,
    alloc: Global,
    files: Files<D>,
    texts: &[(&str, i64)],
) -> Result<Files<D>, Fail> {
    let conn = connected(alloc, files)?;
    Ok(asked(rt, conn, texts)?.close())
}

/// Each text answers its number; ends the connection.
fn asked<S: Alter + Drop>(
    rt: &impl Abort,
    mut conn: Connection<S>,
    texts: &[(&str, i64)],
) -> Result<S, Fail> {
    for (sql, want) in texts {
        let told = number(&mut conn, sql)?;
        assert_eq!(rt; told, *want, "{sql}");
    }
    Ok(conn.into_store())
}

fn refused<T: Drop, D: Disk + Drop>(
    rt: &impl Abort,
    opened: Result<T, (OpenFault, Files<D>)>,
    want: OpenFault,
) -> Result<Files<D>, Fail> {
    let Some((fault, files)) = refusal(opened) else {
        return Err("opened".into());
    };
    assert_eq!(rt; fault, want);
    Ok(files)
}

fn migrates<D: Disk + Drop>(
    rt: &impl Abort,
    alloc: Global,
    files: Files<D>,
    to: u32,
    want: &(Migrated, u32),
) -> Result<Files<D>, Fail> {
    if 3 < to {
        return Err("no such version".into());
    }
    match opened(alloc, files) {
        Ok(ledger) => {
            let (answer, version, files) = brought(alloc, ledger, to);
            assert_eq!(rt; (answer, version), *want);
            Ok(files)
        }
        Err((fault, _)) => Err(fault.into()),
    }
}

fn serves<D: Disk + Drop>(
    rt: &impl Abort,
    alloc: Global,
    files: Files<D>,
    to: u32,
    want: bool,
) -> Result<Files<D>, Fail> {
    if 3 < to {
        return Err("no such version".into());
    }
    match opened(alloc, files) {
        Ok(ledger) => {
            let (is_served, files) = served(rt, alloc, ledger, to)?;
            assert_eq!(rt; is_served, want);
            Ok(files)
        }
        Err((fault, _)) => Err(fault.into()),
    }
}

fn went_on<D: Disk + Drop>(
    rt: &impl Abort,
    alloc: Global,
    files: Files<D>,
) -> Result<Files<D>, Fail> {
    match usable(alloc, files) {
        Ok(store) => used(rt, alloc, store),
        Err((fault, _)) => Err(fault.into()),
    }
}
