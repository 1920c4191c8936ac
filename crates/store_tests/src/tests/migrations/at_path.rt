//! A ledger in a file of the host.

ghost use Rattle.std.specs.Prelude.{IfOk};
ghost use Rattle.migrate.specs.Ledgers.{IsMigratable};
ghost use Rattle.store.specs.Stores.{IsUsable};

use super::database::executed;
use super::fixture::LEDGER;
use super::stored::{Migrated, brought, refusal, used};
use crate::tests::disks::WIDE;
use migrate::LedgerOfVersion;
use sqlite::{Connection, Error, File, FileStore, Unknown};
use std::fs;
use std::test::Fail;
use store::OpenFault::OldSchema;
use store::{FullAudit, OpenFault, Store};

const PATH: &str = "migrate_files_test.db";

const LOG: &str = "migrate_files_test.db-wal";

fn connected(rt: &HostRuntime) -> Result<Connection<FileStore<File>>, Error> {
    match Connection::open_from(rt, PATH, false, Unknown) {
        Ok(conn) => Ok(conn),
        Err((error, _)) => Err(error),
    }
}

fn opened(rt: &HostRuntime) -> Result<LedgerOfVersion<File>, OpenFault>
    ensures { IfOk result IsMigratable }
{
    match LedgerOfVersion::open_for_migration_at(rt, PATH, Unknown, WIDE, &FullAudit) {
        Ok(ledger) => Ok(ledger),
        Err((fault, _files)) => Err(fault),
    }
}

fn usable(rt: &HostRuntime) -> Result<Store<File>, OpenFault>
    ensures { IfOk result IsUsable }
{
    match Store::open_at(rt, PATH, Unknown, WIDE, &FullAudit) {
        Ok(store) => Ok(store),
        Err((fault, _files)) => Err(fault),
    }
}

fn write_file(rt: &HostRuntime) -> Result<(), Error> {
    let _files = executed(connected(rt)?, &LEDGER)?.close();
    Ok(())
}

/// The version that is found, what the migration answers, and the version that is there then.
fn migrate_file(rt: &HostRuntime) -> Result<(u32, Migrated, u32), OpenFault> {
    let ledger = opened(rt)?;
    let from = ledger.schema();
    let (answer, to, _files) = brought(rt.alloc(), ledger, 3);
    Ok((from, answer, to))
}

#[test]
fn a_file_of_the_host_is_migrated(rt: HostRuntime) -> Result<(), Fail> {
    let _ = fs::remove_file(&rt, PATH);
    let _ = fs::remove_file(&rt, LOG);
    write_file(&rt)?;
    assert_eq!(rt; refusal(usable(&rt)), Some(OldSchema));
    assert_eq!(rt; migrate_file(&rt)?, (1, Ok(()), 3));
    used(&rt, rt.alloc(), usable(&rt)?)?;
    fs::remove_file(&rt, PATH)?;
    let _ = fs::remove_file(&rt, LOG);
    Ok(())
}
