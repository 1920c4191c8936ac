//! A store as what keeps the ledgers of many tenants.

use crate::Store;
use chain::{Backend, BatchFault, RoundBackend, RoundWork, Work};
use records::Unavailable;
use sqlite_disk::Disk;

impl<D: Disk + Drop> Backend for Store<D> {
    ghost use Rattle.store.specs.StoreLaws.{store_meaning, continues_itself, continues_then};
    ghost use Rattle.store.specs.StoreLaws.{stays_failed, valid_tenants};

    ghost means = { store_meaning };

    fn has_failed(&self) -> bool {
        !self.ready
    }

    fn in_batch<W: Work + Drop>(
        &mut self,
        digest: &[u8; 32],
        work: W,
    ) -> Result<W::Output, BatchFault> {
        self.is_settled();
        self.in_batch(digest, work)
    }

    fn knows(&mut self, digest: &[u8; 32]) -> Result<bool, Unavailable> {
        self.knows(digest)
    }

    ghost stays = { λ a. continues_itself a };

    ghost then = { λ a b c f g. continues_then a b c f g };

    ghost lived = { λ a b f live. f.follows.lived live };

    ghost fails = { λ a b f failed. stays_failed a b f failed };

    ghost valid = { λ a live usable. valid_tenants a live usable };
}

impl<D: Disk + Drop> RoundBackend for Store<D> {
    fn in_round<W: RoundWork + Drop>(&mut self, work: W) -> Result<W::Output, Unavailable> {
        self.is_settled();
        self.in_round(work)
    }
}
