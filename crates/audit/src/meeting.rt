//! A file's history, met row by row as a replay tells it.

ghost use Rattle.std.specs.Prelude.{◌≡◌, ◌<◌, List, [], All, map, IfSome};
ghost use Rattle.std.specs.Bool.{OnTrue};
ghost use Rattle.rows.specs.declared.history_row.HistoryRow.{HistoryRow};
ghost use Rattle.rows.specs.Cells.{history_cells};
ghost use Rattle.rows.specs.Tables.{HasDistinctKeys, history_key};
ghost use Rattle.rows.specs.Widths.{IsStorableHistory};
ghost use Rattle.audit.specs.Meeting.{Met, IsAmong, AreAscending};
ghost use Rattle.audit.specs.Order.{in_order};

use rows::{HistoryCells, HistoryRow, read_in_order};
use running::HistoryTaker;
use std::alloc::AllocError;

/// The history rows of a file, in order of key, and how far a replay has told them.
#[derive(Debug, Drop)]
pub(crate) struct Meeting<'a> {
    rows: &'a [HistoryCells],
    // So many were not told yet.
    left: usize,
    // Whether a row was told that does not stand there.
    strange: bool,
}

impl<'a> Meeting<'a> {
    // None is told yet.
    pub(crate) fn of(rows: &'a [HistoryCells]) -> Meeting<'a>
        ensures rows { result.rows.now ≡ rows.now }
        ensures none { Met result result [] }
    {
        Meeting {
            rows,
            left: rows.len(),
            strange: false,
        }
    }

    // Whether the rows are those that were told, in order of key.
    pub(crate) fn is_whole(&self) -> bool
        ensures { OnTrue result
            ((first : Meeting) (told : List HistoryRow) →
            Met first self.now told → HasDistinctKeys history_key told →
            first.rows.now ≡ map history_cells (in_order history_key told)) }
    {
        read_in_order::<HistoryRow>();
        if self.strange || 0 < self.left {
            return false;
        }
        ascend(self.rows)
    }
}

impl HistoryTaker for Meeting<'_> {
    ghost use Rattle.audit.specs.Meeting.{Met};

    ghost told = { Met };

    fn take(&mut self, row: HistoryRow) -> Result<(), AllocError> {
        if self.left == 0 || !stands(self.rows, &row) {
            self.strange = true;
            return Ok(());
        }
        self.left -= 1;
        Ok(())
    }
}

// Whether a row stands among those of a file. It is looked for in order of key.
fn stands(rows: &[HistoryCells], row: &HistoryRow) -> bool
    ensures { OnTrue result
        ((values : List HistoryRow) →
        All IsStorableHistory values → map history_cells values ≡ rows.now →
        IsAmong values row.now) }
{
    let place = rows.partition_point(|cells| is_before(cells, row));
    match rows.get(place) {
        Some(cells) => is_row(cells, row),
        None => false,
    }
}

// Whether a search for a row goes on behind these cells. What it finds is compared.
fn is_before(cells: &HistoryCells, row: &HistoryRow) -> bool {
    let account = u128::from_be_bytes(cells.account);
    if account == row.account {
        return u64::try_from(cells.timestamp).unwrap_or(0) < row.timestamp;
    }
    account < row.account
}

fn is_row(cells: &HistoryCells, row: &HistoryRow) -> bool
    ensures { OnTrue result
        ((value : HistoryRow) →
        IsStorableHistory value → cells.now ≡ history_cells value → value ≡ row.now) }
{
    match cells.to_row() {
        Some(found) => found == *row,
        None => false,
    }
}

// Whether all rows can be read, and each is above the one in front of it.
fn ascend(rows: &[HistoryCells]) -> bool
    ensures { OnTrue result (AreAscending rows.now) }
{
    let mut before = None;
    for cells in rows {
        let row = next_above(before, cells);
        if row.is_none() {
            return false;
        }
        before = row;
    }
    true
}

// The row that the cells hold, if it is above the one in front of it.
fn next_above(before: Option<HistoryRow>, cells: &HistoryCells) -> Option<HistoryRow>
    ensures cells { IfSome result (λ row. cells.now ≡ history_cells row) }
    ensures fits { IfSome result IsStorableHistory }
    ensures above { IfSome result (λ row. IfSome before
        (λ other. IsStorableHistory other → history_key other < history_key row)) }
{
    let row = cells.to_row()?;
    if !is_above(before, &row) {
        return None;
    }
    Some(row)
}

fn is_above(before: Option<HistoryRow>, row: &HistoryRow) -> bool
    ensures { OnTrue result (IfSome before
        (λ other. IsStorableHistory other → history_key other < history_key row.now)) }
{
    match before {
        Some(other) => is_less(&other, row),
        None => true,
    }
}

fn is_less(other: &HistoryRow, row: &HistoryRow) -> bool
    ensures { OnTrue result
        (IsStorableHistory other.now → history_key other.now < history_key row.now) }
{
    if other.account == row.account {
        return other.timestamp < row.timestamp;
    }
    other.account < row.account
}
