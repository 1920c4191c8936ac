ghost use Rattle.std.specs.Prelude.{◌≡◌};
ghost use Rattle.records.specs.declared.unavailable.Unavailable.TheVariants.{Memory};

use std::alloc::{AllocError, AllocFailed};
use std::error::Error;
use std::fmt;

/// Why a ledger could not be reached. Nothing has changed; only where its disk failed while changes
/// were being kept may the next opening find all of them.
#[derive(Clone, Copy, Debug, PartialEq, Eq)]
pub enum Unavailable {
    /// Memory ran out.
    Memory,
    /// The store is full, or a record is too long for it.
    Size,
    /// The disk failed.
    Disk,
}

impl fmt::Display for Unavailable {
    fn fmt<W: fmt::Write>(&self, f: &mut fmt::Formatter<W>) -> fmt::Result {
        f.write_str(match self {
            Unavailable::Memory => "out of memory",
            Unavailable::Size => "the store is full",
            Unavailable::Disk => "the disk failed",
        })
    }
}

impl Error for Unavailable {}

impl From<AllocError> for Unavailable {
    ghost from_gives = { λ _ e. e ≡ Memory };

    fn from(_e: AllocError) -> Unavailable {
        Unavailable::Memory
    }
}

impl<T: Drop> From<AllocFailed<T>> for Unavailable {
    ghost from_gives = { λ _ e. e ≡ Memory };

    fn from(_e: AllocFailed<T>) -> Unavailable {
        Unavailable::Memory
    }
}
