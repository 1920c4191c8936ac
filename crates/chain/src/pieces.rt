//! The statement of an account, as pieces of work on one tenant's tables, one behind the other.

ghost use Rattle.std.specs.Prelude.{◌≡◌, ◌≤◌, All, map, IfErr, IfOk, OnOk};
ghost use Rattle.records.specs.Reads.{answer_by};
ghost use Rattle.records.specs.Machine.{account_with};
ghost use Rattle.records.specs.Step.{max_clock};
ghost use Rattle.records.specs.Streams.{TakesRows};
ghost use Rattle.chain.specs.AccountEntries.{account_entries_within, entry_time, first_piece};
ghost use Rattle.chain.specs.AccountEntries.{piece_behind, row_of};
ghost use Rattle.chain.specs.LedgerReads.{seen_of_list, RefusesNext};
ghost use Rattle.chain.specs.Looks.{Answers};

use crate::pages::{span_behind, time_behind};
use crate::reading::AccountFault;
use crate::{AccountEntry, Listed, Tables, Work};
use records::{Order, RowSink, SinkFault, Span, Unavailable};
use std::alloc::Global;

/// The most entries of one piece.
const MOST_IN_A_PIECE: u32 = 500;

/// An account's entries within a span of time.
#[derive(Drop)]
pub(crate) struct Piece {
    pub(crate) alloc: Global,
    pub(crate) account: u128,
    pub(crate) span: Span,
}

impl Work for Piece {
    type Output = Result<Listed<AccountEntry>, AccountFault>;

    ghost gives = { λ work. Answers seen_of_list (λ m. answer_by
        (account_with work.account m.accounts)
        (account_entries_within m work.account work.span)) };

    fn run<T: Tables>(
        self,
        tables: &mut T,
    ) -> Result<Result<Listed<AccountEntry>, AccountFault>, Unavailable> {
        let clock = tables.clock()?;
        let Some(_) = tables.account(self.account)? else {
            return Ok(Err(AccountFault::NoAccount));
        };
        let entries = tables.account_entries(self.alloc, self.account, &self.span)?;
        Ok(Ok(Listed { clock, entries }))
    }
}

/// The span of a statement's first piece.
pub(crate) fn first_piece(order: Order) -> Span
    ensures { result ≡ first_piece order }
{
    Span {
        first: 0,
        last: u64::MAX,
        order,
        most: MOST_IN_A_PIECE,
    }
}

/// Hands the rows of a piece to a sink, and tells the span of the next one, if more may lie behind
/// it.
#[tactic(auto, using(crate::proofs::TakenRows::one_row, crate::proofs::TakenRows::refused_at))]
pub(crate) fn hand_piece<S: RowSink>(
    account: u128,
    span: &Span,
    entries: &[AccountEntry],
    sink: &mut S,
) -> Result<Option<Span>, SinkFault>
    ensures next { All (λ entry. entry_time entry ≤ max_clock) entries.now →
        IfOk result (λ next. next ≡ piece_behind span.now entries.now) }
    ensures ok { OnOk result (TakesRows S.takes sink.old (map (row_of account) entries.now)
        sink.new) }
    ensures err { IfErr result (λ why. RefusesNext S.takes S.refuses
        (map (row_of account) entries.now) why sink.old sink.new) }
{
    let mut behind = 0;
    for entry in entries {
        sink.row(&entry.statement_row(account))?;
        behind = time_behind(span.order, entry.transfer.timestamp);
    }
    if entries.len() < span.most as usize {
        Ok(None)
    } else {
        Ok(Some(span_behind(span, behind)))
    }
}
