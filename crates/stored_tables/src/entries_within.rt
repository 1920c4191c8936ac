//! An account's entries within a span of time, as they come.

ghost use Rattle.std.specs.Prelude.{◌≡◌, ℕ, Some, IfOk};
ghost use Rattle.records.specs.Reads.{Entry};
ghost use Rattle.chain.specs.AccountEntries.{account_entry};
ghost use Rattle.stored_tables.specs.Entries.{AreCellsOf};
ghost use Rattle.stored_tables.specs.Taken.{AddsEntry, HasNone};

use chain::AccountEntry;
use ledger_sql::{EntryCells, EntrySink};
use records::{Span, Unavailable};
use std::alloc::Global;

/// Whether more entries are wanted.
#[derive(Clone, Copy, Debug, PartialEq, Eq)]
pub(crate) enum Progress {
    Open,
    /// They have come to the end of the span.
    Over,
    Failed(Unavailable),
}

/// The entries of an account within a span of time, in the order in which they come.
#[derive(Drop)]
pub(crate) struct EntriesWithin {
    span: Span,
    entries: Vec<AccountEntry>,
    progress: Progress,
}

impl EntriesWithin {
    pub(crate) fn new(alloc: Global, span: Span) -> EntriesWithin
        ensures { HasNone span result }
    {
        EntriesWithin {
            span,
            entries: Vec::new(alloc),
            progress: Progress::Open,
        }
    }

    /// The entries, or why there are none.
    pub(crate) fn finish(self) -> Result<Vec<AccountEntry>, Unavailable>
        ensures { IfOk result (λ entries. (entries ≡ self.entries)
            × ((why : Unavailable) → ¬ (self.progress ≡ Progress.Failed why))) }
    {
        match self.progress {
            Progress::Failed(why) => Err(why),
            Progress::Open | Progress::Over => Ok(self.entries),
        }
    }

    /// Takes the next entry, and tells whether it is within the span.
    fn take(&mut self, cells: &EntryCells) -> Result<bool, Unavailable>
        ensures span { self.new.span ≡ self.old.span }
        ensures next { IfOk result (λ more. (account : ℕ) (entry : Entry) →
            AreCellsOf account entry cells.now →
            AddsEntry self.old.span self.old.entries.items (account_entry account entry)
            self.new.entries.items more) }
    {
        let Some(entry) = entry_in(cells) else {
            return Err(Unavailable::Disk);
        };
        if !self.span.is_within(entry.transfer.timestamp) {
            return Ok(false);
        }
        self.entries.push(entry)?;
        Ok(true)
    }
}

impl EntrySink for EntriesWithin {
    ghost use Rattle.stored_tables.specs.Taken.{TakesEntry, is_closed};

    ghost takes = { TakesEntry };

    ghost is_full = { λ taken. is_closed taken.progress };

    fn entry(&mut self, cells: &EntryCells) -> bool {
        self.progress = match self.take(cells) {
            Ok(true) => Progress::Open,
            Ok(false) => Progress::Over,
            Err(why) => Progress::Failed(why),
        };
        self.progress == Progress::Open
    }
}

/// The entry in these cells; none where a number is negative or beyond its field's width.
fn entry_in(cells: &EntryCells) -> Option<AccountEntry>
    ensures { (account : ℕ) (entry : Entry) →
        AreCellsOf account entry cells.now → result ≡ Some (account_entry account entry) }
{
    let history = cells.history.to_row()?;
    let transfer = cells.transfer.to_transfer()?;
    Some(AccountEntry {
        transfer,
        balances: history.balances,
    })
}
