//! Pieces of an account's statement, each read in a batch of its own.
ghost use Rattle.std.specs.Prelude.{◌≡◌};
ghost use Rattle.chain.specs.LedgerReads.{ReadsTenant};
ghost use Rattle.parts.specs.Pieces.{GivesPiece, IsPieceOf, piece_told};

use chain::{AccountEntry, BatchFault, Ledgers, Listed, ReadFault, Tables, Work};
use records::{Span, Unavailable};
use std::alloc::Global;

/// An account's entries within a span of time, as work on its tenant's tables: none where there is
/// no such account.
#[derive(Drop)]
struct Piece {
    alloc: Global,
    account: u128,
    span: Span,
}

impl Work for Piece {
    type Output = Option<Listed<AccountEntry>>;

    ghost gives = { λ work. GivesPiece work.account work.span };

    fn run<T: Tables>(self, tables: &mut T) -> Result<Option<Listed<AccountEntry>>, Unavailable> {
        let clock = tables.clock()?;
        let Some(_) = tables.account(self.account)? else {
            return Ok(None);
        };
        let entries = tables.account_entries(self.alloc, self.account, &self.span)?;
        Ok(Some(Listed { clock, entries }))
    }
}

// What is told of a batch that reads a piece.
fn piece_told(
    read: Result<Option<Listed<AccountEntry>>, BatchFault>,
) -> Result<Listed<AccountEntry>, ReadFault>
    ensures { result ≡ piece_told read }
{
    match read {
        Ok(Some(listed)) => Ok(listed),
        Ok(None) => Err(ReadFault::NoAccount),
        Err(BatchFault::UnknownKey) => Err(ReadFault::UnknownKey),
        Err(BatchFault::Unavailable(why)) => Err(ReadFault::Unavailable(why)),
    }
}

/// The entries of an account within a span of time, and the ledger's clock.
pub fn read_piece<L: Ledgers>(
    alloc: Global,
    ledgers: &mut L,
    digest: &[u8; 32],
    account: u128,
    span: &Span,
) -> Result<Listed<AccountEntry>, ReadFault>
    ensures { ReadsTenant L.means digest.now (IsPieceOf account span.now)
        ledgers.old ledgers.new result }
{
    let span = *span;
    piece_told(ledgers.in_batch(
        digest,
        Piece {
            alloc,
            account,
            span,
        },
    ))
}
