//! Ledgers in memory, of which a batch or a round fails.
ghost use Rattle.std.specs.Prelude.{◌≡◌, ⊤, true, false};
ghost use Rattle.chain.specs.Ledgers.{AreValid, KeepsAll};
ghost use Rattle.plain.specs.BookLedgers.{machines_in};

use chain::{BatchFault, InUse, Ledgers, RoundBackend, RoundWork, Rounds, Work};
use parts::{Part, Rest};
use plain::Book;
use polling::Steward;
use records::Unavailable;
use service::Moments;
use std::alloc::Global;

/// What becomes of a round, once all of its messages are answered in it.
#[derive(Clone, Copy, Debug, PartialEq, Eq)]
pub(crate) enum Fate {
    /// It is refused for this reason, and taken back.
    Refused(Unavailable),
    /// The disk fails. The next opening finds all of it.
    Found,
    /// The disk fails. The next opening finds nothing of it.
    NotFound,
}

/// The work of a round, behind which memory is wanting.
#[derive(Drop)]
struct Undone<W> {
    work: W,
}

impl<W: RoundWork + Drop> RoundWork for Undone<W> {
    type Output = ();

    ghost gives = { λ _ old _ new. KeepsAll old new };

    fn run<L: Ledgers>(self, ledgers: &mut L) -> Result<(), Unavailable> {
        let _ = self.work.run(ledgers);
        Err(Unavailable::Memory)
    }
}

/// Does the work of a round, and takes all of it back.
fn take_back<W: RoundWork + Drop>(ledgers: &mut InUse<Book>, work: W)
    ensures valid { AreValid (machines_in ledgers.old) }
    ensures same { KeepsAll (machines_in ledgers.old) (machines_in ledgers.new) }
{
    match ledgers.backend.in_round(Undone { work }) {
        Ok(()) => {}
        Err(_) => {}
    }
}

/// The ledgers of several firms, of which a batch may be refused, and a round may have a fate. Where
/// their disk has failed each call is told so, until they are opened again.
#[derive(Drop)]
pub(crate) struct Frail {
    ledgers: InUse<Book>,
    /// How many batches come before the one that is refused, and why it is.
    pub(crate) refusal: Option<(u64, Unavailable)>,
    /// What becomes of the next round.
    fate: Option<Fate>,
    pub(crate) is_shut: bool,
    /// How many rounds were begun.
    pub(crate) rounds: u64,
}

impl Frail {
    pub(crate) fn new(ledgers: InUse<Book>, fate: Option<Fate>) -> Frail {
        Frail {
            ledgers,
            refusal: None,
            fate,
            is_shut: false,
            rounds: 0,
        }
    }
}

impl Ledgers for Frail {
    // What an opening finds is not told: it may find anything.
    ghost means = { record {
      tenants = λ l. machines_in l.ledgers;
      is_live = λ l. AreValid (machines_in l.ledgers) × l.is_shut ≡ false;
      has_failed = λ l. l.is_shut;
      follows = λ a b.
          (AreValid (machines_in b.ledgers) → AreValid (machines_in a.ledgers))
          × (b.is_shut ≡ false → a.is_shut ≡ false) × (a.is_shut ≡ true → b.is_shut ≡ true);
      may_find = λ l found. ⊥;
    } };

    fn has_failed(&self) -> bool {
        self.is_shut
    }

    fn in_batch<W: Work + Drop>(
        &mut self,
        digest: &[u8; 32],
        work: W,
    ) -> Result<W::Output, BatchFault> {
        if self.is_shut {
            return Err(BatchFault::Unavailable(Unavailable::Disk));
        }
        match self.refusal.take() {
            None => self.ledgers.in_batch(digest, work),
            Some((0, why)) => {
                self.is_shut = why == Unavailable::Disk;
                Err(BatchFault::Unavailable(why))
            }
            Some((before, why)) => {
                self.refusal = Some((before.saturating_sub(1), why));
                self.ledgers.in_batch(digest, work)
            }
        }
    }

    fn knows(&mut self, digest: &[u8; 32]) -> Result<bool, Unavailable> {
        if self.is_shut {
            return Err(Unavailable::Disk);
        }
        self.ledgers.knows(digest)
    }

    ghost stays = { λ a. (λ valid. valid, λ live. live, λ failed. failed) };

    ghost then = { λ a b c first second. (
      λ valid. first.0 (second.0 valid),
      λ live. first.1 (second.1 live),
      λ failed. second.2 (first.2 failed),
    ) };

    ghost lived = { λ a b follows live. (follows.0 live.0, follows.1 live.1) };

    ghost fails = { λ a b follows failed. follows.2 failed };

    ghost valid = { λ a live. live.0 };
}

impl Rounds for Frail {
    fn in_round<W: RoundWork + Drop>(&mut self, work: W) -> Result<W::Output, Unavailable> {
        if self.is_shut {
            return Err(Unavailable::Disk);
        }
        self.rounds = self.rounds.saturating_add(1);
        match self.fate.take() {
            None => self.ledgers.in_round(work),
            Some(Fate::Refused(why)) => {
                take_back(&mut self.ledgers, work);
                Err(why)
            }
            Some(Fate::Found) => {
                let _ = self.ledgers.in_round(work);
                self.is_shut = true;
                Err(Unavailable::Disk)
            }
            Some(Fate::NotFound) => {
                take_back(&mut self.ledgers, work);
                self.is_shut = true;
                Err(Unavailable::Disk)
            }
        }
    }
}

/// Opens such ledgers again.
#[derive(Drop)]
pub(crate) struct Opens;

impl Steward<Frail> for Opens {
    ghost renews = { λ given old new. ⊤ };

    fn is_settled(_ledgers: &Frail) {}

    fn attend<C: Moments>(&mut self, ledgers: &mut Frail, _moments: &mut C) {
        ledgers.is_shut = false;
    }

    fn reads(alloc: Global, ledgers: &mut Frail, rest: &Rest) -> Option<Part> {
        rest.part(alloc, ledgers, b"").ok()
    }
}
