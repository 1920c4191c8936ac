//! Who is told the history of a replay, so that no list of it has to be made.

ghost use Rattle.std.specs.Prelude.{◌++◌, List, OnOk};
ghost use Rattle.rows.specs.declared.history_row.HistoryRow.{HistoryRow};
ghost use Rattle.rows.specs.Changes.{new_history};

use records::Accepted;
use rows::HistoryRow;
use std::alloc::AllocError;

/// Who is told the history rows of a tenant one by one, as its transfers are replayed: of each
/// transfer that of its debit account, and then that of its credit account.
pub trait HistoryTaker {
    ghost use Rattle.std.specs.Prelude.{List, [], ◌∷◌, ◌++◌, OnOk};
    ghost use Rattle.rows.specs.declared.history_row.HistoryRow.{HistoryRow};

    /// What the first becomes once it is told these rows.
    ghost told: { Self → Self → List HistoryRow → Type 0 };

    /// One row more.
    fn take(&mut self, row: HistoryRow) -> Result<(), AllocError>
        ensures { OnOk result
            ((first : Self) (rows : List HistoryRow) →
            told first self.old rows → told first self.new (rows ++ row ∷ [])) };
}

/// Who keeps them all.
impl HistoryTaker for Vec<HistoryRow> {
    ghost use Rattle.std.specs.Prelude.{◌≡◌, ◌++◌};

    ghost told = { λ first list rows. list.items ≡ first.items ++ rows };

    fn take(&mut self, row: HistoryRow) -> Result<(), AllocError> {
        self.push(row)?;
        Ok(())
    }
}

// The two history rows of an accepted transfer.
pub(crate) fn tell<H: HistoryTaker>(history: &mut H, accepted: &Accepted) -> Result<(), AllocError>
    ensures { OnOk result
        ((first : H) (rows : List HistoryRow) →
        H.told first history.old rows →
        H.told first history.new (rows ++ new_history accepted.now)) }
{
    let stored = accepted.stored;
    history.take(HistoryRow {
        account: stored.debit_account_id,
        timestamp: stored.timestamp,
        balances: accepted.debit_after,
    })?;
    history.take(HistoryRow {
        account: stored.credit_account_id,
        timestamp: stored.timestamp,
        balances: accepted.credit_after,
    })
}
