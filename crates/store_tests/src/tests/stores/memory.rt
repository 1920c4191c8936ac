//! Want of memory, where `bench/refuse_alloc.c` refuses an allocation: the call answers so, nothing
//! has changed, and the same call then succeeds. A disk in memory that wants it has failed: its
//! files are opened again, and hold the whole request or nothing of it.

use super::commands::Numbered;
use super::driven::Driven;
use super::events::{accounts, ones, transfer};
use super::scarce_reads::{ENTRIES, reads};
use crate::tests::disks::{Calls, Faulty, InMemory, WIDE};
use crate::tests::works::{Looking, Opening, Sending};
use chain::{BatchFault, BatchReply, Tables, Work};
use records::{AccountEvent, TransferEvent, Unavailable};
use sqlite::Files;
use sqlite_disk::{Crash, Disk};
use std::alloc::Global;
use std::process::Abort;
use store::{AddTenant, FullAudit, OpenFault};
use tenants::TenantName;

/// The digest of the tenant.
pub const NORTH: [u8; 32] = [1; 32];

/// The store as it is, or where its disk failed, on what its files hold after a crash.
pub fn mended<D: Crash + Drop>(
    rt: &impl Abort,
    alloc: Global,
    mut store: Driven<D>,
    fault: Unavailable,
) -> Driven<D> {
    let has_failed = fault == Unavailable::Disk;
    assert!(rt; has_failed || fault == Unavailable::Memory, "{fault:?}");
    assert_eq!(rt; store.is_ready(), (!has_failed, 3));
    if has_failed {
        assert_eq!(rt; store.knows(&NORTH), Err(Unavailable::Disk));
        store = reopened(rt, alloc, crashed(store.close()));
    }
    store
}

/// Files after a crash.
fn crashed<D: Crash>(mut files: Files<D>) -> Files<D> {
    files.log.crash();
    files.db.crash();
    files
}

/// A ledger that is there.
fn reopened<D: Disk + Drop>(rt: &impl Abort, alloc: Global, files: Files<D>) -> Driven<D> {
    match Driven::open(alloc, files, WIDE, &FullAudit) {
        Ok(store) => store,
        Err((fault, _)) => panic!(rt; "not opened: {fault:?}"),
    }
}

/// A new ledger, once there is memory for it. A making that failed may have left the whole of it.
fn made<D: Faulty>(rt: &impl Abort, alloc: Global) -> Driven<D> {
    let files = Files {
        log: D::made(alloc, Calls::All),
        db: D::made(alloc, Calls::All),
    };
    match Driven::make(alloc, files, WIDE) {
        Ok(store) => store,
        Err((fault, files)) => made_again(rt, alloc, fault, files),
    }
}

/// The same, after a fault.
fn made_again<D: Crash + Drop>(
    rt: &impl Abort,
    alloc: Global,
    fault: OpenFault,
    files: Files<D>,
) -> Driven<D> {
    let has_failed = fault == OpenFault::Unavailable(Unavailable::Disk);
    assert!(rt;
        has_failed || fault == OpenFault::Unavailable(Unavailable::Memory),
        "{fault:?}"
    );
    match Driven::make(alloc, crashed(files), WIDE) {
        Ok(store) => store,
        Err((refusal, files)) => {
            assert!(rt; has_failed && refusal == OpenFault::NotALedger);
            reopened(rt, alloc, files)
        }
    }
}

/// Adds a tenant once there is memory for it: it is not known before, or after a fault of the disk
/// it may be, and then its name is taken.
fn adds<D: Crash + Drop>(rt: &impl Abort, alloc: Global, mut store: Driven<D>) -> Driven<D> {
    let north = TenantName::read("North").expect(rt, "no name");
    match store.add(&north, &NORTH) {
        Ok(()) => store,
        Err(AddTenant::Unavailable(fault)) => {
            store = mended(rt, alloc, store, fault);
            adds_again(rt, &mut store, &north, fault);
            store
        }
        Err(fault) => panic!(rt; "{fault:?}"),
    }
}

/// The same, after a fault.
fn adds_again<D: Disk + Drop>(
    rt: &impl Abort,
    store: &mut Driven<D>,
    north: &TenantName,
    fault: Unavailable,
) {
    let is_kept = store.knows(&NORTH) == Ok(true);
    assert!(rt; fault == Unavailable::Disk || !is_kept);
    let want = if is_kept {
        Err(AddTenant::NameTaken)
    } else {
        Ok(())
    };
    assert_eq!(rt; store.add(north, &NORTH), want);
    assert_eq!(rt; store.knows(&NORTH), Ok(true));
}

/// What a batch has.
#[derive(Clone, Copy)]
enum Events<'a> {
    Accounts(&'a [AccountEvent]),
    Transfers(&'a [TransferEvent]),
}

/// Runs a batch, and tells whether its results have these numbers, at timestamps behind a clock.
#[derive(Clone, Copy)]
struct Comparing<'a> {
    alloc: Global,
    events: Events<'a>,
    clock: u64,
    want: &'a [u16],
}

impl Comparing<'_> {
    /// Whether this is what is wanted.
    fn is_met<R: Numbered>(&self, reply: &BatchReply<R>) -> bool {
        let BatchReply::Done { clock: _, results } = reply else {
            return false;
        };
        let told = results
            .iter()
            .map(|each| (each.result.its_number(), each.timestamp));
        let timestamps = self.clock.saturating_add(1)..u64::MAX;
        told.eq(self.want.iter().copied().zip(timestamps))
    }
}

impl Work for Comparing<'_> {
    type Output = bool;

    ghost gives = { λ _ _ _ _. Unit {0} };

    fn run<T: Tables>(self, tables: &mut T) -> Result<bool, Unavailable> {
        let alloc = self.alloc;
        match self.events {
            Events::Accounts(accounts) => {
                let opening = Opening {
                    alloc,
                    accounts,
                    moment: 0,
                };
                Ok(self.is_met(&opening.run(tables)?))
            }
            Events::Transfers(transfers) => {
                let sending = Sending {
                    alloc,
                    transfers,
                    moment: 0,
                };
                Ok(self.is_met(&sending.run(tables)?))
            }
        }
    }
}

/// A batch, and the numbers of its results where it is run first, and where it was run before.
#[derive(Clone, Copy)]
struct Request<'a> {
    events: Events<'a>,
    first: &'a [u16],
    again: &'a [u16],
}

/// Why a batch was not run; its tenant is known.
fn cause(rt: &impl Abort, fault: BatchFault) -> Unavailable {
    match fault {
        BatchFault::Unavailable(why) => why,
        BatchFault::UnknownKey => panic!(rt; "the tenant is not known"),
    }
}

/// The clock, once there is memory to tell it.
fn seen<D: Crash + Drop>(rt: &impl Abort, alloc: Global, mut store: Driven<D>) -> (Driven<D>, u64) {
    let looking = Looking { account: 1 };
    let mut told = store.run(&NORTH, looking);
    if let Err(fault) = told {
        store = mended(rt, alloc, store, cause(rt, fault));
        told = store.run(&NORTH, looking);
    }
    (store, told.expect(rt, "not seen").2)
}

/// Sends a batch once there is memory for it. It is not kept before, or after a fault of the disk
/// the whole of it may be, and then the same batch is a retry. Tells the clock behind it.
fn sends<D: Crash + Drop>(
    rt: &impl Abort,
    alloc: Global,
    (mut store, before): (Driven<D>, u64),
    request: Request<'_>,
) -> (Driven<D>, u64) {
    let mut batch = Comparing {
        alloc,
        events: request.events,
        clock: before,
        want: request.first,
    };
    let mut told = store.run(&NORTH, batch);
    if let Err(fault) = told {
        let fault = cause(rt, fault);
        (store, batch.clock) = seen(rt, alloc, mended(rt, alloc, store, fault));
        if batch.clock != before {
            assert_eq!(rt;
                (fault, batch.clock),
                (Unavailable::Disk, behind(before, request))
            );
            batch.want = request.again;
        }
        told = store.run(&NORTH, batch);
    }
    assert_eq!(rt; told, Ok(true));
    let (store, after) = seen(rt, alloc, store);
    assert_eq!(rt; after, behind(batch.clock, request));
    (store, after)
}

/// The clock behind a batch.
fn behind(before: u64, request: Request<'_>) -> u64 {
    before.saturating_add(request.first.len() as u64)
}

/// Opens the accounts of the base, if there is memory for the events. It gives the clock too.
fn opens<D: Faulty, R: Abort>(rt: &R, alloc: Global) -> Option<(Driven<D>, u64)> {
    let accounts = accounts(alloc, "1; 2; 3 flags=10; 4").ok()?;
    let store = adds(rt, alloc, made(rt, alloc));
    let opening = Request {
        events: Events::Accounts(&accounts),
        first: &[0; 4],
        again: &[13; 4],
    };
    Some(sends(rt, alloc, (store, 0), opening))
}

/// What follows a batch.
#[derive(Clone, Copy)]
enum Next<'a> {
    Batch(Request<'a>),
    /// Each kind of read.
    Reads,
}

/// Sends a batch to a new ledger, and the next one, or reads.
fn sends_to_new<D: Faulty, R: Abort>(rt: &R, alloc: Global, first: Request<'_>, next: Next<'_>) {
    let Some(opened) = opens::<D, _>(rt, alloc) else {
        return;
    };
    let sent = sends(rt, alloc, opened, first);
    match next {
        Next::Batch(request) => {
            let (store, _) = sends(rt, alloc, sent, request);
            store.end();
        }
        Next::Reads => {
            let (store, _) = sent;
            reads(rt, alloc, store);
        }
    }
}

/// A chain that falls, whose id that fails is told from then on, and not before.
#[test]
fn want_of_memory_in_batches(rt: HostRuntime) {
    let alloc = rt.alloc();
    let chain = [transfer("103: 1>2 1 linked"), transfer("104: 3>2 1")];
    let falling = Request {
        events: Events::Transfers(&chain),
        first: &[2, 55],
        again: &[2, 60],
    };
    let single = [transfer("104: 1>2 1")];
    let refused = Request {
        events: Events::Transfers(&single),
        first: &[60],
        again: &[60],
    };
    sends_to_new::<InMemory, _>(&rt, alloc, falling, Next::Batch(refused));
}

#[test]
fn want_of_memory_in_reads(rt: HostRuntime) {
    let alloc = rt.alloc();
    let Ok(transfers) = ones(alloc, 1000, 1040) else {
        return;
    };
    let filling = Request {
        events: Events::Transfers(&transfers),
        first: &[0; ENTRIES],
        again: &[18; ENTRIES],
    };
    sends_to_new::<InMemory, _>(&rt, alloc, filling, Next::Reads);
}
