//! The rows in a range of a key, in either order.

ghost use Rattle.std.specs.Prelude.{◌≡◌, All, IfOk, IfSome, IsSome, OnOk};
ghost use Rattle.sqlite_trees.specs.View.{IsClean};
ghost use Rattle.sqlite_exec.specs.Plan.{is_past as is_past_key};
ghost use Rattle.keyed_trees.specs.Layout.{key_of};
ghost use Rattle.keyed_trees.specs.Rows.{is_backward};
ghost use Rattle.keyed_trees.specs.StoreCalls.{AreReadUpTo, ReadsNext, ReadsOrUndoes, ReadsStore};
ghost use Rattle.keyed_trees.specs.StoreCalls.{Serves, StepsInRange, rows_in_range};

use crate::buffers::Buffers;
use crate::layout::{Layout, Record, read_row, rowid_at};
use sqlite_sql::query::Index;
use sqlite_trees::error::StoreError;
use sqlite_trees::store::{Direction, Store};
use sqlite_value::keys::Order;
use sqlite_value::row::Row;
use std::alloc::Global;

/// The entries of a key between two ends, both inclusive, in the order of the walk. An end may have
/// the first columns of the key alone: all entries that begin with them are then within it.
#[derive(Clone, Copy)]
pub struct Range<'a> {
    pub start: &'a Row,
    pub stop: &'a Row,
    pub direction: Direction,
}

/// Reads the first rows of a range, at most `most` of them. A failure undoes the transaction.
pub(crate) fn read_range<S: Store, L: Layout, R: Record<L>>(
    store: &mut S,
    alloc: Global,
    index: &Index<'_>,
    range: &Range<'_>,
    most: u64,
    buffers: &mut Buffers,
) -> Result<Vec<(i64, R)>, StoreError>
    requires { IsClean (S.Store.view store.old) → Serves (key_of index.now) (S.Store.view store.old) }
    ensures read { IfOk result (λ read. IsClean (S.Store.view store.new) → AreReadUpTo R.cells most
        (rows_in_range (key_of index.now) range.now.direction range.now.start.now
        range.now.stop.now (S.Store.view store.old).trees) read.items) }
    ensures fits { IfOk result (λ read. All (λ it. R.is_storable it.1) read.items) }
    ensures reads { ReadsOrUndoes S.Store store.old store.new result }
{
    let outcome = try_read_range(store, alloc, index, range, most, buffers);
    if outcome.is_err() {
        store.rollback();
    }
    outcome
}

fn try_read_range<S: Store, L: Layout, R: Record<L>>(
    store: &mut S,
    alloc: Global,
    index: &Index<'_>,
    range: &Range<'_>,
    most: u64,
    buffers: &mut Buffers,
) -> Result<Vec<(i64, R)>, StoreError>
    requires { IsClean (S.Store.view store.old) → Serves (key_of index.now) (S.Store.view store.old) }
    ensures read { IfOk result (λ read. IsClean (S.Store.view store.new) → AreReadUpTo R.cells most
        (rows_in_range (key_of index.now) range.now.direction range.now.start.now
        range.now.stop.now (S.Store.view store.old).trees) read.items) }
    ensures fits { IfOk result (λ read. All (λ it. R.is_storable it.1) read.items) }
    ensures reads { ReadsStore S.Store store.old store.new result }
{
    let mut read = Vec::new(alloc);
    store.seek(0, index.tree, range.start, range.direction)?;
    for at in 0..most {
        let Some(record) = next_record(store, alloc, index, range, buffers)? else {
            return Ok(read);
        };
        read.push(record)?;
    }
    Ok(read)
}

/// Reads the row to which the cursor's entry leads and moves on, or returns None at the end of the
/// range.
fn next_record<S: Store, L: Layout, R: Record<L>>(
    store: &mut S,
    alloc: Global,
    index: &Index<'_>,
    range: &Range<'_>,
    buffers: &mut Buffers,
) -> Result<Option<(i64, R)>, StoreError>
    requires served { IsClean (S.Store.view store.old) → Serves (key_of index.now) (S.Store.view store.old) }
    requires live { IsSome ((S.Store.view store.old).cursors 0) }
    ensures live { OnOk result (IsSome ((S.Store.view store.new).cursors 0)) }
    ensures read { IfOk result (λ read. IsClean (S.Store.view store.new) →
        ReadsNext R.cells (key_of index.now) range.now.direction range.now.stop.now
        (S.Store.view store.old) (S.Store.view store.new) read) }
    ensures fits { IfOk result (λ read. IfSome read (λ it. R.is_storable it.1)) }
    ensures reads { ReadsStore S.Store store.old store.new result }
{
    if next_row(store, index, range, &mut buffers.entry, &mut buffers.row)? {
        Ok(Some(read_row(alloc, &buffers.row)?))
    } else {
        Ok(None)
    }
}

/// Writes over `row` the row to which the cursor's entry leads and moves on, or returns false at
/// the end of the range.
fn next_row<S: Store>(
    store: &mut S,
    index: &Index<'_>,
    range: &Range<'_>,
    entry: &mut Row,
    row: &mut Row,
) -> Result<bool, StoreError>
    requires served { IsClean (S.Store.view store.old) → Serves (key_of index.now) (S.Store.view store.old) }
    requires live { IsSome ((S.Store.view store.old).cursors 0) }
    ensures live { OnOk result (IsSome ((S.Store.view store.new).cursors 0)) }
    ensures row { IfOk result (λ found. IsClean (S.Store.view store.new) →
        StepsInRange (key_of index.now) range.now.direction range.now.stop.now
        (S.Store.view store.old) (S.Store.view store.new) row.new found) }
    ensures reads { ReadsStore S.Store store.old store.new result }
{
    if !store.next(0, entry)? || is_past(entry, index.order, range) {
        return Ok(false);
    }
    // An entry without a row occurs in a store that is not clean alone.
    let Some(id) = rowid_at(entry, index.columns.len()) else {
        return Err(StoreError::Broken);
    };
    if store.get(index.table, id, row)? {
        Ok(true)
    } else {
        Err(StoreError::Broken)
    }
}

fn is_past(entry: &Row, order: Order, range: &Range<'_>) -> bool
    ensures { result ≡ is_past_key order (is_backward range.now.direction) range.now.stop.now
        entry.now }
{
    let side = entry.cmp_prefix(order, range.stop);
    match range.direction {
        Direction::Forward => side.is_gt(),
        Direction::Backward => side.is_lt(),
    }
}
