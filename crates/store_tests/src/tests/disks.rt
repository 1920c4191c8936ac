//! The disks of tests: in memory, and they may stop, or fail once.

use failing_disk::OnceFailing;
use sqlite::Options;
use sqlite_disk::{Crash, Fuse, Memory};
use std::alloc::Global;

/// Which calls come through to a disk.
#[derive(Clone, Copy, Debug)]
pub enum Calls {
    All,
    /// So many, and no more, as in a crash.
    First(u64),
    /// All but one read or write, which has so many others before it.
    AllButOne(u64),
}

/// A disk that may crash, and whose calls may fail.
pub trait Faulty: Crash + Drop {
    /// A new disk, of which these calls come through.
    fn made(alloc: Global, calls: Calls) -> Self;
}

/// A disk in memory.
pub type InMemory = OnceFailing<Fuse<Memory>>;

/// No count of a test's calls comes so far.
const NEVER: u64 = 1_000_000;

impl Faulty for InMemory {
    fn made(alloc: Global, calls: Calls) -> InMemory {
        let (all, before) = match calls {
            Calls::All => (NEVER, NEVER),
            Calls::First(all) => (all, NEVER),
            Calls::AllButOne(before) => (NEVER, before),
        };
        OnceFailing::new(Fuse::new(Memory::new(alloc), all), before)
    }
}

/// So few pages that a batch is spilled, and so short a log that commits copy it.
pub const SMALL: Options = Options {
    cache_pages: 4,
    spill_pages: 4,
    checkpoint_frames: 8,
    seed: 7,
};

/// Enough pages for what a test holds.
pub const WIDE: Options = Options {
    cache_pages: 50,
    spill_pages: 50,
    checkpoint_frames: 100,
    seed: 7,
};
