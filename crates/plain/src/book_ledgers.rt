ghost use Rattle.plain.specs.BookLedgers.{book_meaning};

use crate::Book;
use chain::{Backend, BatchFault, InUse, RoundBackend, RoundWork, Work};
use records::Unavailable;

impl Backend for Book {
    ghost means = { book_meaning };

    fn has_failed(&self) -> bool {
        false
    }

    fn in_batch<W: Work + Drop>(
        &mut self,
        digest: &[u8; 32],
        work: W,
    ) -> Result<W::Output, BatchFault> {
        self.batch(digest, work)
    }

    fn knows(&mut self, digest: &[u8; 32]) -> Result<bool, Unavailable> {
        Ok(self.holds(digest))
    }

    ghost stays = { λ a. tt };

    ghost then = { λ a b c f g. tt };

    ghost lived = { λ a b f live. tt };

    ghost fails = { λ a b f failed. failed };

    ghost valid = { λ a live usable. usable };
}

impl RoundBackend for Book {
    // The work is done on a copy, which takes the book's place where it is done.
    fn in_round<W: RoundWork + Drop>(&mut self, work: W) -> Result<W::Output, Unavailable> {
        let mut ledgers = InUse {
            backend: self.copy()?,
        };
        let output = work.run(&mut ledgers)?;
        *self = ledgers.into_backend();
        Ok(output)
    }
}
