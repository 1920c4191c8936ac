//! Disks in memory, which may fail from some call on, and stores over them.

use chain::InUse;
use records::Unavailable;
use rows::AllRows;
use sqlite::{Files, Options};
use sqlite_disk::{Crash, Disk, Fuse, Memory};
use std::alloc::Global;
use std::test::Fail;
use store::{FullAudit, OpenFault, Store};

/// A disk that fails behind so many calls, until a crash. What holds a store is generic over it,
/// since each function that holds a store of a named disk takes long to prove.
pub trait Faulty: Crash + Drop {
    /// A new disk, which fails behind so many calls.
    fn made(alloc: Global, calls: u64) -> Self;
}

/// Such a disk in memory.
pub type TestDisk = Fuse<Memory>;

impl Faulty for TestDisk {
    fn made(alloc: Global, calls: u64) -> TestDisk {
        Fuse::new(Memory::new(alloc), calls)
    }
}

/// A store that may be called.
pub type TestStore<D> = InUse<Store<D>>;

/// Few pages, and so short a log that commits copy it into the database file.
const SMALL: Options = Options {
    cache_pages: 16,
    spill_pages: 16,
    checkpoint_frames: 8,
    seed: 7,
};

/// More calls than any of these runs makes.
pub const NEVER: u64 = 1_000_000;

/// Empty files, whose disks fail behind so many calls.
pub fn empty<D: Faulty>(alloc: Global, log: u64, database: u64) -> Files<D> {
    Files {
        log: D::made(alloc, log),
        db: D::made(alloc, database),
    }
}

/// A store that is made in files, or why it is not, with the files.
pub fn made<D: Disk + Drop>(
    alloc: Global,
    files: Files<D>,
) -> Result<TestStore<D>, (OpenFault, Files<D>)> {
    if !(files.log.may_be_used() && files.db.may_be_used()) {
        return Err((OpenFault::Unavailable(Unavailable::Disk), files));
    }
    let backend = Store::create(alloc, files, SMALL)?;
    Ok(InUse { backend })
}

/// The same, or a failure.
pub fn made_in<D: Disk + Drop>(alloc: Global, files: Files<D>) -> Result<TestStore<D>, Fail> {
    match made(alloc, files) {
        Ok(store) => Ok(store),
        Err((fault, _files)) => Err(fault.into()),
    }
}

/// A new store, whose disks fail behind so many calls.
pub fn new_store<D: Faulty>(alloc: Global, log: u64, database: u64) -> Result<TestStore<D>, Fail> {
    made_in(alloc, empty(alloc, log, database))
}

/// What a crash leaves of files, on disks that fail no more.
pub fn crashed<D: Crash>(mut files: Files<D>) -> Files<D> {
    files.log.crash();
    files.db.crash();
    files
}

/// The store that is found in files.
pub fn opened<D: Disk + Drop>(alloc: Global, files: Files<D>) -> Result<TestStore<D>, Fail> {
    if !(files.log.may_be_used() && files.db.may_be_used()) {
        return Err("a file is not to be used".into());
    }
    match Store::open(alloc, files, SMALL, &FullAudit) {
        Ok(backend) => Ok(InUse { backend }),
        Err((fault, _files)) => Err(fault.into()),
    }
}

/// The store that is found in the files of another after a crash.
pub fn after_a_crash<D: Crash + Drop>(
    alloc: Global,
    store: TestStore<D>,
) -> Result<TestStore<D>, Fail> {
    opened(alloc, crashed(store.into_backend().close()))
}

/// Closes a store, and forgets its files.
pub fn shut<D: Disk + Drop>(store: TestStore<D>) {
    let _files = store.into_backend().close();
}

/// All rows, once there is memory to read them.
pub fn rows_in<D: Disk + Drop>(store: &mut TestStore<D>) -> Result<AllRows, Fail> {
    match store.backend.all_rows() {
        Err(Unavailable::Memory) => Ok(store.backend.all_rows()?),
        rows => Ok(rows?),
    }
}

/// Opens a store again.
pub fn reopen<D: Disk + Drop>(store: &mut TestStore<D>) -> Result<(), OpenFault> {
    store
        .backend
        .reopen(&FullAudit)
        .map_err(|refused| refused.fault)
}
