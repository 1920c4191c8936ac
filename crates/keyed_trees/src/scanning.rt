//! All rows of a table, in the order of their rowids.

ghost use Rattle.std.specs.Prelude.{◌≡◌, All, IfOk, IfSome, IsSome, OnOk, map};
ghost use Rattle.sqlite_trees.specs.View.{IsClean};
ghost use Rattle.keyed_trees.specs.Rows.{row_of};
ghost use Rattle.keyed_trees.specs.StoreCalls.{ReadsNextRow, ReadsOrUndoes, ReadsStore};

use crate::layout::{Layout, Record, read_row};
use sqlite_trees::error::StoreError;
use sqlite_trees::store::{Direction, Shape, Store};
use sqlite_value::row::Row;
use std::alloc::Global;

/// Reads all rows of a table. A failure undoes the transaction.
pub(crate) fn read_rows<S: Store, L: Layout, R: Record<L>>(
    store: &mut S,
    alloc: Global,
    row: &mut Row,
) -> Result<Vec<(i64, R)>, StoreError>
    requires { IsClean (S.Store.view store.old) → (S.Store.view store.old).shape R.table ≡ Shape.Table }
    ensures read { IfOk result (λ read. IsClean (S.Store.view store.new) →
        map (row_of R.cells) read.items ≡ (S.Store.view store.old).trees R.table) }
    ensures fits { IfOk result (λ read. All (λ it. R.is_storable it.1) read.items) }
    ensures reads { ReadsOrUndoes S.Store store.old store.new result }
{
    let outcome = try_read_rows(store, alloc, row);
    if outcome.is_err() {
        store.rollback();
    }
    outcome
}

fn try_read_rows<S: Store, L: Layout, R: Record<L>>(
    store: &mut S,
    alloc: Global,
    row: &mut Row,
) -> Result<Vec<(i64, R)>, StoreError>
    requires { IsClean (S.Store.view store.old) → (S.Store.view store.old).shape R.table ≡ Shape.Table }
    ensures read { IfOk result (λ read. IsClean (S.Store.view store.new) →
        map (row_of R.cells) read.items ≡ (S.Store.view store.old).trees R.table) }
    ensures fits { IfOk result (λ read. All (λ it. R.is_storable it.1) read.items) }
    ensures reads { ReadsStore S.Store store.old store.new result }
{
    let mut read = Vec::new(alloc);
    row.clear();
    store.seek(0, R::table(), row, Direction::Forward)?;
    for at in 0..u64::MAX {
        let Some(record) = next_record(store, alloc, row)? else {
            return Ok(read);
        };
        read.push(record)?;
    }
    Err(StoreError::OutOfMemory)
}

/// Reads the cursor's row and moves on, or returns None at the end.
fn next_record<S: Store, L: Layout, R: Record<L>>(
    store: &mut S,
    alloc: Global,
    row: &mut Row,
) -> Result<Option<(i64, R)>, StoreError>
    requires { IsSome ((S.Store.view store.old).cursors 0) }
    ensures live { OnOk result (IsSome ((S.Store.view store.new).cursors 0)) }
    ensures read { IfOk result (λ read. IsClean (S.Store.view store.new) →
        ReadsNextRow R.cells (S.Store.view store.old) (S.Store.view store.new) read) }
    ensures fits { IfOk result (λ read. IfSome read (λ it. R.is_storable it.1)) }
    ensures reads { ReadsStore S.Store store.old store.new result }
{
    if store.next(0, row)? {
        Ok(Some(read_row(alloc, row)?))
    } else {
        Ok(None)
    }
}
