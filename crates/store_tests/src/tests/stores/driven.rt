//! A store in use, as tests call it.

use chain::{BatchFault, InUse, Ledgers, ReadFault, Work};
use failing_streams::TakenRows;
use records::{Order, StatementRow, Unavailable};
use sqlite::{Files, Options};
use sqlite_disk::{Disk, Start};
use sqlite_std_file::FileFrom;
use std::alloc::Global;
use store::{AddTenant, Audit, FullAudit, OpenFault, Refused, Store};
use tenants::TenantName;

/// A store in use.
#[derive(Drop)]
pub struct Driven<D: Disk + Drop> {
    pub ledgers: InUse<Store<D>>,
}

impl<D: Disk + Drop> Driven<D> {
    pub fn make(
        alloc: Global,
        files: Files<D>,
        options: Options,
    ) -> Result<Driven<D>, (OpenFault, Files<D>)> {
        if !files.may_be_used() {
            return Err((OpenFault::Unavailable(Unavailable::Disk), files));
        }
        match Store::create(alloc, files, options) {
            Ok(backend) => Ok(Driven {
                ledgers: InUse { backend },
            }),
            Err(refused) => Err(refused),
        }
    }

    pub fn open<A: Audit>(
        alloc: Global,
        files: Files<D>,
        options: Options,
        audit: &A,
    ) -> Result<Driven<D>, (OpenFault, Files<D>)> {
        if !files.may_be_used() {
            return Err((OpenFault::Unavailable(Unavailable::Disk), files));
        }
        match Store::open(alloc, files, options, audit) {
            Ok(backend) => Ok(Driven {
                ledgers: InUse { backend },
            }),
            Err(refused) => Err(refused),
        }
    }

    /// Lets the store go.
    pub fn end(self) {}

    pub fn close(self) -> Files<D> {
        self.ledgers.into_backend().close()
    }

    pub fn reopen<A: Audit>(&mut self, audit: &A) -> Result<(), Refused> {
        self.ledgers.backend.reopen(audit)
    }

    pub fn add(&mut self, name: &TenantName, digest: &[u8; 32]) -> Result<(), AddTenant> {
        self.ledgers.backend.add_tenant(name, digest)
    }

    pub fn knows(&mut self, digest: &[u8; 32]) -> Result<bool, Unavailable> {
        self.ledgers.knows(digest)
    }

    pub fn run<W: Work + Drop>(
        &mut self,
        digest: &[u8; 32],
        work: W,
    ) -> Result<W::Output, BatchFault>
    where
        W::Output: Drop,
    {
        self.ledgers.in_batch(digest, work)
    }

    /// The rows of a statement, as long as there is room for them, and how it ended.
    pub fn statement(
        &mut self,
        alloc: Global,
        digest: &[u8; 32],
        (account, order, room): (u128, Order, usize),
    ) -> (Vec<StatementRow>, Result<(), ReadFault>) {
        let mut rows = TakenRows {
            taken: Vec::new(alloc),
            room,
        };
        let ended = self
            .ledgers
            .each_statement_row(alloc, digest, account, order, &mut rows);
        (rows.taken, ended)
    }

    /// Whether it answers calls, and the version of its schema.
    pub fn is_ready(&self) -> (bool, u32) {
        (
            self.ledgers.backend.is_ready(),
            self.ledgers.backend.schema(),
        )
    }
}

impl<St: Start> Driven<FileFrom<St>> {
    pub fn make_at(
        rt: &HostRuntime,
        path: &str,
        start: St,
        options: Options,
    ) -> Result<Driven<FileFrom<St>>, OpenFault> {
        match Store::create_at(rt, path, start, options) {
            Ok(backend) => Ok(Driven {
                ledgers: InUse { backend },
            }),
            Err((fault, _files)) => Err(fault),
        }
    }

    pub fn open_at(
        rt: &HostRuntime,
        path: &str,
        start: St,
        options: Options,
    ) -> Result<Driven<FileFrom<St>>, OpenFault> {
        match Store::open_at(rt, path, start, options, &FullAudit) {
            Ok(backend) => Ok(Driven {
                ledgers: InUse { backend },
            }),
            Err((fault, _files)) => Err(fault),
        }
    }

    /// Made in the files that an opening gives back, which tells that they are no ledger.
    pub fn make_in_refused(
        rt: &HostRuntime,
        path: &str,
        start: St,
        options: Options,
    ) -> Result<Driven<FileFrom<St>>, OpenFault> {
        match Store::open_at(rt, path, start, options, &FullAudit) {
            Ok(backend) => Ok(Driven {
                ledgers: InUse { backend },
            }),
            Err((OpenFault::NotALedger, Some(files))) => {
                Driven::make(rt.alloc(), files, options).map_err(|(fault, _files)| fault)
            }
            Err((fault, _files)) => Err(fault),
        }
    }
}
