//! A ledger of any version, opened to be migrated.

ghost use Rattle.std.specs.Prelude.{◌≡◌, ◌≤◌, ◌↔◌, IsOk, IfOk, IfErr, IsTrue};
ghost use Rattle.sqlite.specs.Files.{image_of};
ghost use Rattle.sqlite.specs.State.{HasCleanDisk};
ghost use Rattle.sqlite_wal.specs.Files.{image_at};
ghost use Rattle.sqlite_wal.specs.Reads.{AreClean};
ghost use Rattle.openings.specs.AtPath.{LeavesPath};
ghost use Rattle.openings.specs.Calls.{AreUsable};
ghost use Rattle.openings.specs.Found.{LeavesCommitted, Yields};
ghost use Rattle.openings.specs.OpenTables.{open_state};
ghost use Rattle.stored_ledgers.specs.Resting.{IsServing};
ghost use Rattle.migrate.specs.Ledgers.{IsMigratable, IsOpenedToMigrate, RefusesFiles, state_of};

use crate::any_version::AnyVersion;
use openings::auditing::Audit;
use openings::closing::{is_settled, shut};
use openings::inspecting::open_telling;
use openings::open_tables::OpenTables;
use openings::opening::{OpenFault, files_at};
use openings::versions::CURRENT_VERSION;
use sqlite::{Connection, FileStore, Files, Options};
use sqlite_disk::{Disk, Start};
use sqlite_std_file::FileFrom;
use std::alloc::Global;
use stored_ledgers::batches::DueSets;

/// A ledger in two files that was opened to be migrated, of any version up to the current one.
///
/// From a fault of the disk on a migration answers that the disk failed.
pub struct LedgerOfVersion<D: Disk> {
    pub(crate) conn: Connection<FileStore<D>>,
    /// Whether calls are answered.
    pub(crate) ready: bool,
    pub(crate) version: u32,
    /// What is due of each tenant, where the version is the current one.
    pub(crate) due: DueSets,
}

// It is written out, so that who lets a ledger go does not prove again how each part is dropped.
impl<D: Disk + Drop> Drop for LedgerOfVersion<D> {
    fn drop(self) {
        let LedgerOfVersion {
            conn: _,
            ready: _,
            version: _,
            due: _,
        } = self;
    }
}

impl<D: Disk + Drop> LedgerOfVersion<D> {
    /// Opens the ledger in two files, once all of it was looked at. They are given back where it is
    /// refused. A file of an older version that has tables of strangers is refused as unreadable,
    /// since the tables that it lacks could only be made behind those.
    pub fn open_for_migration<A: Audit>(
        alloc: Global,
        files: Files<D>,
        options: Options,
        audit: &A,
    ) -> Result<LedgerOfVersion<D>, (OpenFault, Files<D>)>
        requires { AreUsable D.Disk files }
        ensures migratable { IfOk result IsMigratable }
        ensures opened { IfOk result (IsOpenedToMigrate (image_of D.Disk files)) }
        ensures honest { IfOk result (λ ledger. HasCleanDisk (state_of ledger)
            → AreClean D.Disk files.log files.db) }
        ensures refused { IfErr result (RefusesFiles D.Disk files) }
    {
        match open_telling(alloc, files, options, &AnyVersion { audit }) {
            Ok((conn, found)) => Ok(LedgerOfVersion {
                conn,
                ready: true,
                version: found.version,
                due: found.due,
            }),
            Err((refused, left)) => Err((refused.fault, left)),
        }
    }

    /// The version of the schema that the opening found or the last migration set.
    pub fn schema(&self) -> u32
        ensures { result ≡ self.now.version }
    {
        self.version
    }

    /// Whether calls are answered: not from a fault of the disk on.
    pub fn is_ready(&self) -> bool
        ensures { result ≡ self.now.ready }
    {
        self.ready
    }

    /// A law: while the database is open, a crash leaves what is there, and nothing else.
    pub fn is_settled(&self)
        ensures { LeavesCommitted (state_of self.now) }
    {
        is_settled(&self.conn);
    }

    /// Ends the ledger, and gives its files back, to be opened again.
    pub fn close(self) -> Files<D>
        ensures back { Yields D.Disk result (state_of self).may_leave }
        ensures honest { AreClean D.Disk result.log result.db → HasCleanDisk (state_of self) }
    {
        let LedgerOfVersion {
            conn,
            ready: _,
            version: _,
            due: _due,
        } = self;
        shut(conn)
    }

    /// The database and what is due of each tenant, to be served with no second reading, where the
    /// version is the current one and calls are answered; else the ledger itself.
    pub fn into_served(self) -> Result<(OpenTables<D>, DueSets), LedgerOfVersion<D>>
        requires { IsMigratable self }
        ensures serves { IfOk result (λ parts. IsServing parts.1 (open_state parts.0)) }
        ensures over { IfOk result (λ parts. parts.0 ≡ self.conn) }
        ensures served { IsOk result ↔ ((CURRENT_VERSION ≤ self.version) × IsTrue self.ready) }
        ensures back { IfErr result (λ ledger. ledger ≡ self) }
    {
        if self.version < CURRENT_VERSION {
            return Err(self);
        }
        if !self.ready {
            return Err(self);
        }
        let LedgerOfVersion {
            conn,
            ready: _,
            version: _,
            due,
        } = self;
        Ok((conn, due))
    }
}

impl<St: Start> LedgerOfVersion<FileFrom<St>> {
    /// As `open_for_migration`, at a path. Files that are missing are made, and then refused as
    /// empty ones. They are given back where the ledger is refused; there are none where the path
    /// is. `St` stands for what they hold; which one it is matters to the clauses on values alone.
    pub fn open_for_migration_at<A: Audit>(
        rt: &HostRuntime,
        path: &str,
        start: St,
        options: Options,
        audit: &A,
    ) -> Result<LedgerOfVersion<FileFrom<St>>, (OpenFault, Option<Files<FileFrom<St>>>)>
        ensures migratable { IfOk result IsMigratable }
        ensures opened { IfOk result (IsOpenedToMigrate (image_at St.Start)) }
        ensures refused { IfErr result (λ e. LeavesPath ⟦<FileFrom<St> as Disk>⟧
            (image_at St.Start) (RefusesFiles ⟦<FileFrom<St> as Disk>⟧) e.0 e.1) }
    {
        let files = match files_at(rt, path, start) {
            Ok(files) => files,
            Err(fault) => return Err((fault, None)),
        };
        match LedgerOfVersion::open_for_migration(rt.alloc(), files, options, audit) {
            Ok(ledger) => Ok(ledger),
            Err((fault, left)) => Err((fault, Some(left))),
        }
    }
}
