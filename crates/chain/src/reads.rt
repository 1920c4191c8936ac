ghost use Rattle.std.specs.Prelude.{◌≡◌};
ghost use Rattle.records.specs.declared.unavailable.Unavailable.TheVariants.{Memory};
ghost use Rattle.chain.specs.declared.reads.ReadFault.TheVariants.{Unavailable as AreUnavailable};
ghost use Rattle.chain.specs.declared.reads.ReadFault.TheVariants.{Sink as Refused};

use records::{SinkFault, Unavailable};
use std::alloc::AllocError;

/// What a read found, and the clock at which it was judged.
#[derive(Debug, Drop)]
pub struct Listed<T> {
    /// In nanoseconds.
    pub clock: u64,
    pub entries: Vec<T>,
}

/// A page of what a query found, the clock at which it was judged, and where the next one begins.
#[derive(Debug, Drop)]
pub struct QueryPage<T> {
    /// In nanoseconds.
    pub clock: u64,
    pub entries: Vec<T>,
    /// The time with which the next page is asked for, in nanoseconds; 0 where there is none.
    pub next: u64,
}

/// Why a read has no answer, in the order in which the faults are tested. Nothing has changed.
#[derive(Clone, Copy, Debug, PartialEq, Eq)]
pub enum ReadFault {
    /// No tenant has this digest.
    UnknownKey,
    Unavailable(Unavailable),
    /// The tenant has no account with this id.
    NoAccount,
    /// The account keeps no history of its balances.
    NoHistory,
    /// The sink refused a row, with this fault. It has got those before it.
    Sink(SinkFault),
}

impl From<Unavailable> for ReadFault {
    ghost from_gives = { λ why fault. fault ≡ AreUnavailable why };

    fn from(why: Unavailable) -> ReadFault {
        ReadFault::Unavailable(why)
    }
}

impl From<AllocError> for ReadFault {
    ghost from_gives = { λ _ fault. fault ≡ AreUnavailable Memory };

    fn from(_error: AllocError) -> ReadFault {
        ReadFault::Unavailable(Unavailable::Memory)
    }
}

impl From<SinkFault> for ReadFault {
    ghost from_gives = { λ why fault. fault ≡ Refused why };

    fn from(why: SinkFault) -> ReadFault {
        ReadFault::Sink(why)
    }
}
