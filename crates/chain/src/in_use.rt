//! Ledgers that may be called.
ghost use Rattle.std.specs.Prelude.{◌≡◌};

use crate::{Backend, BatchFault, Ledgers, RoundBackend, RoundWork, Rounds, Work};
use records::Unavailable;
use std::marker::Model;

/// The ledgers of a backend that is usable. That they may be called is an invariant, so that no call
/// asks for it.
pub struct InUse<B: Backend> {
    pub backend: B,
}

// It is written out, so that who lets ledgers go does not prove again how each part is dropped.
impl<B: Backend + Drop> Drop for InUse<B> {
    fn drop(self) {
        let InUse { backend: _ } = self;
    }
}

impl<B: Backend> Model for InUse<B> {
    ghost Value = { B };

    ghost view = { λ it. it.backend };

    ghost invariant = { λ it. B.means.is_usable it.backend };
}

impl<B: Backend> InUse<B> {
    /// Who keeps them, to be called as it asks for.
    pub fn into_backend(self) -> B
        ensures same { result ≡ self }
        ensures usable { B.means.is_usable result }
    {
        let InUse { backend } = self;
        backend
    }
}

impl<B: Backend> Ledgers for InUse<B> {
    ghost use Rattle.chain.specs.Backends.{in_use};

    ghost means = { in_use B.means };

    fn has_failed(&self) -> bool {
        self.backend.has_failed()
    }

    fn in_batch<W: Work + Drop>(
        &mut self,
        digest: &[u8; 32],
        work: W,
    ) -> Result<W::Output, BatchFault> {
        self.backend.in_batch(digest, work)
    }

    fn knows(&mut self, digest: &[u8; 32]) -> Result<bool, Unavailable> {
        self.backend.knows(digest)
    }

    ghost stays = { λ a. (B.stays a, λ usable. usable) };

    ghost then = { λ a b c f g. (B.then a b c f.0 g.0, λ usable. f.1 (g.1 usable)) };

    ghost lived = { λ a b f live. (B.lived a b f.0 live.0, f.1 live.1) };

    ghost fails = { λ a b f failed. B.fails a b f.0 failed };

    ghost valid = { λ a live. B.valid a live.0 live.1 };
}

impl<B: RoundBackend> Rounds for InUse<B> {
    fn in_round<W: RoundWork + Drop>(&mut self, work: W) -> Result<W::Output, Unavailable> {
        self.backend.in_round(work)
    }
}
