//! What is left of a statement.
ghost use Rattle.std.specs.Prelude.{◌≡◌, ◌≤◌, All, IfOk};
ghost use Rattle.records.specs.Step.{max_clock};
ghost use Rattle.chain.specs.AccountEntries.{entry_time};
ghost use Rattle.chain.specs.LedgerReads.{ReadsTenant};
ghost use Rattle.parts.specs.Parts.{IsPartOf, IsPartTold, rest_behind, span_of, whole_rest};

use crate::piece::read_piece;
use crate::rows::{chunks_of, put_lines};
use chain::{AccountEntry, Ledgers, Listed, ReadFault};
use ledger_http::Text;
use records::{Order, Span, Unavailable};
use std::alloc::{AllocError, Global};

/// How many entries a chunk has.
const ROWS_IN_A_CHUNK: u32 = 500;

/// What is left of a statement: the entries of an account from a time on, up to a clock.
#[derive(Clone, Copy, Debug, PartialEq, Eq)]
pub struct Rest {
    pub(crate) digest: [u8; 32],
    pub(crate) account: u128,
    // Inclusive, in nanoseconds.
    pub(crate) first: u64,
    pub(crate) last: u64,
}

/// A part of a statement, as chunks, and what is left behind it.
#[derive(Drop)]
pub struct Part {
    pub chunks: Text,
    pub rest: Option<Rest>,
}

impl Rest {
    /// All of an account's statement, of the tenant with a digest.
    pub fn whole(digest: [u8; 32], account: u128) -> Rest
        ensures { result ≡ whole_rest digest account }
    {
        Rest {
            digest,
            account,
            first: 0,
            last: u64::MAX,
        }
    }

    /// The span of time that is left.
    fn span(&self) -> Span
        ensures { result ≡ span_of self.now }
    {
        Span {
            first: self.first,
            last: self.last,
            order: Order::Oldest,
            most: ROWS_IN_A_CHUNK,
        }
    }

    /// What is left behind entries that were read at a clock.
    fn behind(&self, clock: u64, entries: &[AccountEntry]) -> Option<Rest>
        ensures { All (λ entry. entry_time entry ≤ max_clock) entries.now
            → result ≡ rest_behind self.now clock entries.now }
    {
        if entries.len() < ROWS_IN_A_CHUNK as usize {
            return None;
        }
        let last = entries.last()?;
        Some(Rest {
            digest: self.digest,
            account: self.account,
            first: last.transfer.timestamp.saturating_add(1),
            last: self.last.min(clock),
        })
    }

    /// The part of these entries.
    fn part_of(
        &self,
        alloc: Global,
        before: &[u8],
        listed: &Listed<AccountEntry>,
    ) -> Result<Part, AllocError>
        ensures { IfOk result
            (IsPartOf before.now self.now listed.now.clock listed.now.entries.items) }
    {
        let entries = listed.entries.as_slice();
        let is_last = entries.len() < ROWS_IN_A_CHUNK as usize;
        let lines = put_lines(alloc, before, self.account, entries)?;
        let chunks = chunks_of(alloc, &lines, is_last)?;
        Ok(Part {
            chunks: chunks.into(),
            rest: self.behind(listed.clock, entries),
        })
    }

    /// Reads the part that comes next, whose lines stand behind these bytes.
    pub fn part<L: Ledgers>(
        &self,
        alloc: Global,
        ledgers: &mut L,
        before: &[u8],
    ) -> Result<Part, ReadFault>
        ensures { ReadsTenant L.means self.now.digest
            (λ tenant. IsPartTold before.now tenant self.now) ledgers.old ledgers.new result }
    {
        let listed = read_piece(alloc, ledgers, &self.digest, self.account, &self.span())?;
        match self.part_of(alloc, before, &listed) {
            Ok(part) => Ok(part),
            Err(_) => Err(ReadFault::Unavailable(Unavailable::Memory)),
        }
    }
}
