//! Rows with cells that cannot be read.

ghost use Rattle.std.specs.Prelude.{◌≡◌, All, IfNone};
ghost use Rattle.rows.specs.TypedRows.{lists_of};
ghost use Rattle.audit.specs.Order.{IsBadRow, IsFirstPlace, lesser_place};
ghost use Rattle.audit.specs.Shapes.{HasOneClock, IsMisshapen, AreShaped};

use crate::cells::Cells;
use rows::TenantRows;

/// The first place at which a row cannot be read.
pub(crate) fn first_misshapen(rows: &TenantRows) -> Option<usize>
    ensures first { IsFirstPlace (IsMisshapen (lists_of rows.now)) result }
    ensures shaped { IfNone result (AreShaped (lists_of rows.now)) }
{
    let entries = first(
        first_bad_row(&rows.accounts),
        first_bad_row(&rows.transfers),
    );
    let derived = first(first_bad_row(&rows.statuses), first_bad_row(&rows.history));
    first(first_without_clock(&rows.clocks), first(entries, derived))
}

fn first_bad_row<C: Cells>(rows: &[C]) -> Option<usize>
    ensures first { IsFirstPlace (IsBadRow C.IsShaped rows.now) result }
    ensures shaped { IfNone result (All C.IsShaped rows.now) }
{
    for (place, row) in rows.iter().enumerate() {
        if !row.is_shaped() {
            return Some(place);
        }
    }
    None
}

fn first_without_clock(clocks: &[i64]) -> Option<usize>
    ensures first { IsFirstPlace (λ place. (place ≡ 0) × (HasOneClock clocks.now → ⊥)) result }
    ensures one { IfNone result (HasOneClock clocks.now) }
{
    match clocks {
        [clock] if 0 <= *clock => None,
        _ => Some(0),
    }
}

// The lesser of two places.
pub(crate) fn first(a: Option<usize>, b: Option<usize>) -> Option<usize>
    ensures { result ≡ lesser_place a b }
{
    match (a, b) {
        (Some(a), Some(b)) => Some(a.min(b)),
        (None, b) => b,
        (a, None) => a,
    }
}
