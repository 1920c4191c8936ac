ghost use Rattle.std.specs.Prelude.{◌≡◌, ℕ, ◌<◌, ◌^◌, Option, Some, IfSome};
ghost use Rattle.std.specs.Option.{ForSome};
ghost use Rattle.records.specs.declared.facts.PendingState.{PendingState};
ghost use Rattle.rows.specs.StatusNumbers.{state_number, due_number, IsStorableDue};

use crate::StatusRow;
use crate::cell::{unsigned, wide, wide_column};
use records::PendingState;

/// A row of the table `status`, without its column `tenant`. The numbers are as the file has them.
#[derive(Clone, Copy, Debug, PartialEq, Eq)]
pub struct StatusCells {
    pub transfer: [u8; 16],
    /// 0 open, 1 posted, 2 voided, 3 expired.
    pub state: i64,
    /// In nanoseconds; 0 is never.
    pub due: i64,
}

impl StatusCells {
    ghost use Rattle.std.specs.Prelude.{◌≡◌, ◌<◌, ◌^◌, Some, IfSome};
    ghost use Rattle.std.specs.Option.{ForSome};
    ghost use Rattle.rows.specs.declared.status_row.StatusRow.{StatusRow};
    ghost use Rattle.rows.specs.Cells.{status_cells};
    ghost use Rattle.rows.specs.Widths.{IsStorableStatus};

    /// The cells of a status row.
    pub fn from_row(row: &StatusRow) -> Self
        requires { ForSome row.now.due (λ due. due < 2 ^ 63) }
        ensures { result ≡ status_cells row.now }
    {
        StatusCells {
            transfer: wide_column(row.transfer),
            state: number_of(row.state),
            due: number_of_due(row.due),
        }
    }

    /// The row that has these cells; none where there is no such state, or the due time is
    /// negative.
    pub fn to_row(&self) -> Option<StatusRow>
        ensures cells { IfSome result (λ row. self.now ≡ status_cells row) }
        ensures fits { IfSome result IsStorableStatus }
        ensures undoes { (row : StatusRow) →
            IsStorableStatus row → self.now ≡ status_cells row → result ≡ Some row }
    {
        Some(StatusRow {
            transfer: wide(self.transfer),
            state: state_with(self.state)?,
            due: due_with(self.due)?,
        })
    }
}

fn number_of(state: PendingState) -> i64
    ensures { result ≡ state_number state }
{
    match state {
        PendingState::Open => 0,
        PendingState::Posted => 1,
        PendingState::Voided => 2,
        PendingState::Expired => 3,
    }
}

fn state_with(number: i64) -> Option<PendingState>
    ensures number { IfSome result (λ state. number ≡ state_number state) }
    ensures undoes { (state : PendingState) → number ≡ state_number state → result ≡ Some state }
{
    match number {
        0 => Some(PendingState::Open),
        1 => Some(PendingState::Posted),
        2 => Some(PendingState::Voided),
        3 => Some(PendingState::Expired),
        _ => None,
    }
}

fn number_of_due(due: Option<u64>) -> i64
    requires { ForSome due (λ due. due < 2 ^ 63) }
    ensures { result ≡ due_number due }
{
    match due {
        Some(due) => due as i64,
        None => 0,
    }
}

fn due_with(number: i64) -> Option<Option<u64>>
    ensures number { IfSome result (λ due. number ≡ due_number due) }
    ensures fits { IfSome result IsStorableDue }
    ensures undoes { (due : Option ℕ) →
        IsStorableDue due → number ≡ due_number due → result ≡ Some due }
{
    match unsigned(number)? {
        0 => Some(None),
        due => Some(Some(due)),
    }
}
