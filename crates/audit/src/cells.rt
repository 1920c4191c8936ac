//! Rows as a file has them, and the values that they hold.

ghost use Rattle.std.specs.Prelude.{◌≡◌, ◌<◌, List, All, map, length, Some, slice_get, IsSomeAnd, IfOk};
ghost use Rattle.std.specs.Bool.{Decides};
ghost use Rattle.rows.specs.Cells.{account_cells, transfer_cells, balance_cells, status_cells, history_cells};
ghost use Rattle.rows.specs.Widths.{IsStorableAccount, IsStorableTransfer, IsStorableBalance, IsStorableStatus, IsStorableHistory};
ghost use Rattle.audit.specs.Order.{IsFirstPlace, Differ};
ghost use Rattle.audit.specs.Shapes.{IsAccountRow, IsTransferRow, IsStatusRow, IsHistoryRow};

use records::{Account, Transfer};
use rows::{
    AccountCells, BalanceCells, BalanceRow, HistoryCells, HistoryRow, StatusCells, StatusRow,
    TransferCells,
};
use std::alloc::{AllocError, Global};

/// A kind of row: its cells, as a file has them, and the value of the model that they may hold.
pub(crate) trait Cells: Drop {
    ghost use Rattle.std.specs.Prelude.{◌≡◌, Some, IfSome};
    ghost use Rattle.std.specs.Bool.{Decides};

    type Value: Drop;

    ghost cells: { Self.Value → Self };

    ghost Fits: { Self.Value → Type 0 };

    ghost IsShaped: { Self → Type 0 };

    // The cells of a value.
    fn of(value: &Self::Value) -> Self
        requires { Fits value.now }
        ensures { result ≡ cells value.now };

    // The value, if the cells hold one.
    fn value(&self) -> Option<Self::Value>
        ensures cells { IfSome result (λ value. self.now ≡ cells value) }
        ensures fits { IfSome result Fits }
        ensures undoes { (value : Self.Value) →
            Fits value → self.now ≡ cells value → result ≡ Some value };

    // Whether no cell is out of shape.
    fn is_shaped(&self) -> bool
        ensures { Decides result (IsShaped self.now) };

    // Whether two values are the same.
    fn is_same(a: &Self::Value, b: &Self::Value) -> bool
        ensures { Decides result (a.now ≡ b.now) };
}

impl Cells for AccountCells {
    type Value = Account;

    ghost cells = { account_cells };

    ghost Fits = { IsStorableAccount };

    ghost IsShaped = { IsAccountRow };

    fn of(account: &Account) -> AccountCells {
        AccountCells::from_account(account)
    }

    fn value(&self) -> Option<Account> {
        self.to_account()
    }

    fn is_shaped(&self) -> bool {
        self.to_account().is_some()
    }

    fn is_same(a: &Account, b: &Account) -> bool {
        a == b
    }
}

impl Cells for TransferCells {
    type Value = Transfer;

    ghost cells = { transfer_cells };

    ghost Fits = { IsStorableTransfer };

    ghost IsShaped = { IsTransferRow };

    fn of(transfer: &Transfer) -> TransferCells {
        TransferCells::from_transfer(transfer)
    }

    fn value(&self) -> Option<Transfer> {
        self.to_transfer()
    }

    fn is_shaped(&self) -> bool {
        self.to_transfer().is_some()
    }

    fn is_same(a: &Transfer, b: &Transfer) -> bool {
        a == b
    }
}

impl Cells for BalanceCells {
    type Value = BalanceRow;

    ghost cells = { balance_cells };

    ghost Fits = { IsStorableBalance };

    ghost IsShaped = { λ _. Unit {0} };

    fn of(row: &BalanceRow) -> BalanceCells {
        BalanceCells::from_row(row)
    }

    fn value(&self) -> Option<BalanceRow> {
        Some(self.to_row())
    }

    fn is_shaped(&self) -> bool {
        true
    }

    fn is_same(a: &BalanceRow, b: &BalanceRow) -> bool {
        a == b
    }
}

impl Cells for StatusCells {
    type Value = StatusRow;

    ghost cells = { status_cells };

    ghost Fits = { IsStorableStatus };

    ghost IsShaped = { IsStatusRow };

    fn of(row: &StatusRow) -> StatusCells {
        StatusCells::from_row(row)
    }

    fn value(&self) -> Option<StatusRow> {
        self.to_row()
    }

    fn is_shaped(&self) -> bool {
        0 <= self.state && 0 <= self.due
    }

    fn is_same(a: &StatusRow, b: &StatusRow) -> bool {
        a == b
    }
}

impl Cells for HistoryCells {
    type Value = HistoryRow;

    ghost cells = { history_cells };

    ghost Fits = { IsStorableHistory };

    ghost IsShaped = { IsHistoryRow };

    fn of(row: &HistoryRow) -> HistoryCells {
        HistoryCells::from_row(row)
    }

    fn value(&self) -> Option<HistoryRow> {
        self.to_row()
    }

    fn is_shaped(&self) -> bool {
        0 <= self.timestamp
    }

    fn is_same(a: &HistoryRow, b: &HistoryRow) -> bool {
        a == b
    }
}

// The cells of these values.
pub(crate) fn in_cells<C: Cells>(alloc: Global, values: &[C::Value]) -> Result<Vec<C>, AllocError>
    requires { All C.Fits values.now }
    ensures { IfOk result (λ rows. rows.items ≡ map C.cells values.now) }
{
    let mut rows = Vec::new(alloc);
    for value in values {
        rows.push(C::of(value))?;
    }
    Ok(rows)
}

// The value of the row at a place, of rows that all hold one.
pub(crate) fn value_at<C: Cells>(rows: &[C], place: usize) -> C::Value
    requires { (values : List C.Value)
        × All C.Fits values × (map C.cells values ≡ rows.now) × (place < length values) }
    ensures { (values : List C.Value) →
        All C.Fits values → map C.cells values ≡ rows.now → slice_get values place ≡ Some result }
{
    rows[place].value().unwrap()
}

// The first place where the rows are not those of these values.
pub(crate) fn first_difference<C: Cells>(rows: &[C], wanted: &[C::Value]) -> Option<usize>
    requires { All C.Fits wanted.now }
    ensures { IsFirstPlace (Differ rows.now (map C.cells wanted.now)) result }
{
    for place in 0..rows.len().max(wanted.len()) {
        if !is_same_at(rows, wanted, place) {
            return Some(place);
        }
    }
    None
}

fn is_same_at<C: Cells>(rows: &[C], wanted: &[C::Value], place: usize) -> bool
    requires { All C.Fits wanted.now }
    ensures { Decides result
        (slice_get rows.now place ≡ slice_get (map C.cells wanted.now) place) }
{
    match (rows.get(place), wanted.get(place)) {
        (Some(row), Some(value)) => holds(row, value),
        (None, None) => true,
        _ => false,
    }
}

fn holds<C: Cells>(row: &C, value: &C::Value) -> bool
    requires { C.Fits value.now }
    ensures { Decides result (row.now ≡ C.cells value.now) }
{
    match row.value() {
        Some(found) => C::is_same(&found, value),
        None => false,
    }
}

// The first place at which this value stands.
pub(crate) fn first_same<C: Cells>(rows: &[C], wanted: &C::Value) -> Option<usize>
    requires { (values : List C.Value) × All C.Fits values × (map C.cells values ≡ rows.now) }
    ensures { (values : List C.Value) →
        All C.Fits values → map C.cells values ≡ rows.now →
        IsFirstPlace
        (λ place. IsSomeAnd (slice_get values place) (λ value. value ≡ wanted.now)) result }
{
    for place in 0..rows.len() {
        if C::is_same(&value_at(rows, place), wanted) {
            return Some(place);
        }
    }
    None
}
