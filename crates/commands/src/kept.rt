//! Ledgers that may not be there.
ghost use Rattle.std.specs.Prelude.{◌≡◌};
ghost use Rattle.commands.specs.Kept.{kept_meaning, kept_stays, kept_then, kept_lived};
ghost use Rattle.commands.specs.Kept.{kept_fails, kept_of, kept_valid, MayBeCalled};

use crate::stores;
use chain::{BatchFault, InUse, Ledgers, RoundWork, Rounds, Work};
use records::Unavailable;
use sqlite_disk::Disk;
use store::Store;

/// Ledgers, or none where they cannot be opened.
#[derive(Drop)]
pub(crate) enum Kept<L> {
    Open(L),
    /// Each call answers that the disk failed.
    Closed,
}

impl<L> Kept<L> {
    /// Ledgers, or none where they are still to be opened.
    pub(crate) fn of(ledgers: Option<L>) -> Kept<L>
        ensures { result ≡ kept_of ledgers }
    {
        match ledgers {
            Some(ledgers) => Kept::Open(ledgers),
            None => Kept::Closed,
        }
    }
}

/// A law: the store, if it is there, may be called.
pub(crate) fn may_be_called<D: Disk + Drop>(kept: &Kept<InUse<Store<D>>>)
    ensures { MayBeCalled kept.now }
{
    if let Kept::Open(store) = kept {
        stores::may_be_called(store);
    }
}

impl<L: Ledgers> Ledgers for Kept<L> {
    ghost means = { kept_meaning L.means };

    fn has_failed(&self) -> bool {
        match self {
            Kept::Open(ledgers) => ledgers.has_failed(),
            Kept::Closed => true,
        }
    }

    fn in_batch<W: Work + Drop>(
        &mut self,
        digest: &[u8; 32],
        work: W,
    ) -> Result<W::Output, BatchFault> {
        match self {
            Kept::Open(ledgers) => ledgers.in_batch(digest, work),
            Kept::Closed => Err(BatchFault::Unavailable(Unavailable::Disk)),
        }
    }

    fn knows(&mut self, digest: &[u8; 32]) -> Result<bool, Unavailable> {
        match self {
            Kept::Open(ledgers) => ledgers.knows(digest),
            Kept::Closed => Err(Unavailable::Disk),
        }
    }

    ghost stays = { λ a. kept_stays L.means L.stays a };

    ghost then = { λ a b c first second. kept_then L.means L.then a b c first second };

    ghost lived = { λ a b follows live. kept_lived L.means L.lived a b follows live };

    ghost fails = { λ a b follows failed. kept_fails L.means L.fails a b follows failed };

    ghost valid = { λ a live. kept_valid L.means L.valid a live };
}

impl<L: Rounds> Rounds for Kept<L> {
    fn in_round<W: RoundWork + Drop>(&mut self, work: W) -> Result<W::Output, Unavailable> {
        match self {
            Kept::Open(ledgers) => ledgers.in_round(work),
            Kept::Closed => Err(Unavailable::Disk),
        }
    }
}
