//! Stores in two files at a path.

ghost use Rattle.std.specs.Prelude.{IfErr, IfOk};
ghost use Rattle.sqlite_wal.specs.Files.{image_at};
ghost use Rattle.ledger_sql.specs.Creating.{IsEmptyLedger};
ghost use Rattle.openings.specs.AtPath.{LeavesPath};
ghost use Rattle.openings.specs.Found.{FindsNoSchema};
ghost use Rattle.openings.specs.Refused.{RefusesToMake};
ghost use Rattle.store.specs.Refused.{RefusesToOpen};
ghost use Rattle.store.specs.Stores.{IsHonest, IsLive, IsOpenedOn, AnswersCalls, IsUsable, OfDatabase};

use crate::Store;
use openings::auditing::Audit;
use openings::opening::{OpenFault, files_at};
use sqlite::{Files, Options};
use sqlite_disk::{Disk, Start};
use sqlite_std_file::FileFrom;

impl<St: Start> Store<FileFrom<St>> {
    /// As `create`, at a path, whose two files are made where they are missing. They are given back
    /// where the ledger is refused; there are none where the path is. `St` stands for what they
    /// hold; which one it is matters to the clauses on values alone.
    pub fn create_at(
        rt: &HostRuntime,
        path: &str,
        start: St,
        options: Options,
    ) -> Result<Store<FileFrom<St>>, (OpenFault, Option<Files<FileFrom<St>>>)>
        ensures usable { IfOk result IsUsable }
        ensures ready { IfOk result AnswersCalls }
        ensures empty { IfOk result (λ store. IsHonest store → IsLive store
            × OfDatabase (λ db. IsEmptyLedger db.trees) store) }
        ensures blank { IfOk result (λ store. IsHonest store → FindsNoSchema (image_at St.Start)) }
        ensures refused { IfErr result (λ e. LeavesPath ⟦<FileFrom<St> as Disk>⟧
            (image_at St.Start) (RefusesToMake ⟦<FileFrom<St> as Disk>⟧) e.0 e.1) }
    {
        let files = match files_at(rt, path, start) {
            Ok(files) => files,
            Err(fault) => return Err((fault, None)),
        };
        match Store::create(rt.alloc(), files, options) {
            Ok(store) => Ok(store),
            Err((fault, left)) => Err((fault, Some(left))),
        }
    }

    /// As `open`, at a path. Files that are missing are made, and then refused as empty ones. They
    /// are given back where the ledger is refused; there are none where the path is.
    pub fn open_at<A: Audit>(
        rt: &HostRuntime,
        path: &str,
        start: St,
        options: Options,
        audit: &A,
    ) -> Result<Store<FileFrom<St>>, (OpenFault, Option<Files<FileFrom<St>>>)>
        ensures usable { IfOk result IsUsable }
        ensures ready { IfOk result AnswersCalls }
        ensures opened { IfOk result (λ store. IsHonest store
            → IsOpenedOn (image_at St.Start) store) }
        ensures refused { IfErr result (λ e. LeavesPath ⟦<FileFrom<St> as Disk>⟧
            (image_at St.Start) (RefusesToOpen ⟦<FileFrom<St> as Disk>⟧) e.0 e.1) }
    {
        let files = match files_at(rt, path, start) {
            Ok(files) => files,
            Err(fault) => return Err((fault, None)),
        };
        match Store::open(rt.alloc(), files, options, audit) {
            Ok(store) => Ok(store),
            Err((fault, refused)) => Err((fault, Some(refused))),
        }
    }
}
