//! One row of a table, by a key or by its rowid.

ghost use Rattle.std.specs.Prelude.{◌≡◌, IfOk, IfSome};
ghost use Rattle.sqlite_trees.specs.View.{Finds as IsAt, IsClean};
ghost use Rattle.keyed_trees.specs.Layout.{key_of};
ghost use Rattle.keyed_trees.specs.Rows.{FindsRow, IsReadOf, has_key};
ghost use Rattle.keyed_trees.specs.StoreCalls.{FindsEntry, ReadsOrUndoes, ReadsStore, Serves};

use crate::layout::{Layout, Record, read_row};
use sqlite_rules::edit::id_in;
use sqlite_sql::query::Index;
use sqlite_trees::error::StoreError;
use sqlite_trees::store::{Direction, Shape, Store};
use sqlite_value::row::Row;
use std::alloc::Global;

/// Writes over `row` a row that has the key, or returns false. It writes the key's entry over
/// `entry`. A failure undoes the transaction.
pub(crate) fn find<S: Store>(
    store: &mut S,
    index: &Index<'_>,
    key: &Row,
    entry: &mut Row,
    row: &mut Row,
) -> Result<bool, StoreError>
    requires { IsClean (S.Store.view store.old) → Serves (key_of index.now) (S.Store.view store.old) }
    ensures found { IfOk result (λ found. IsClean (S.Store.view store.new) →
        FindsRow (has_key (key_of index.now) key.now)
        ((S.Store.view store.old).trees index.now.table) row.new found) }
    ensures reads { ReadsOrUndoes S.Store store.old store.new result }
{
    let outcome = try_find(store, index, key, entry, row);
    if outcome.is_err() {
        store.rollback();
    }
    outcome
}

fn try_find<S: Store>(
    store: &mut S,
    index: &Index<'_>,
    key: &Row,
    entry: &mut Row,
    row: &mut Row,
) -> Result<bool, StoreError>
    requires { IsClean (S.Store.view store.old) → Serves (key_of index.now) (S.Store.view store.old) }
    ensures found { IfOk result (λ found. IsClean (S.Store.view store.new) →
        FindsRow (has_key (key_of index.now) key.now)
        ((S.Store.view store.old).trees index.now.table) row.new found) }
    ensures reads { ReadsStore S.Store store.old store.new result }
{
    if !find_entry(store, index, key, entry)? {
        return Ok(false);
    }
    let id = id_in(entry.get(index.columns.len()));
    // An entry without a row occurs in a store that is not clean alone.
    if store.get(index.table, id, row)? {
        Ok(true)
    } else {
        Err(StoreError::Broken)
    }
}

/// Writes over `entry` the first entry that begins with the key, or returns false.
fn find_entry<S: Store>(
    store: &mut S,
    index: &Index<'_>,
    key: &Row,
    entry: &mut Row,
) -> Result<bool, StoreError>
    requires { IsClean (S.Store.view store.old) → Serves (key_of index.now) (S.Store.view store.old) }
    ensures found { IfOk result (λ found. IsClean (S.Store.view store.new) →
        FindsEntry index.now.order key.now ((S.Store.view store.old).trees index.now.tree)
        entry.new found) }
    ensures reads { ReadsStore S.Store store.old store.new result }
{
    store.seek(0, index.tree, key, Direction::Forward)?;
    if !store.next(0, entry)? {
        return Ok(false);
    }
    Ok(entry.cmp_prefix(index.order, key).is_eq())
}

/// Writes over `row` the row that has the rowid, or returns false. A failure undoes the
/// transaction.
pub(crate) fn find_at<S: Store>(
    store: &mut S,
    table: u32,
    id: i64,
    row: &mut Row,
) -> Result<bool, StoreError>
    requires { IsClean (S.Store.view store.old) → (S.Store.view store.old).shape table ≡ Shape.Table }
    ensures found { IfOk result (λ found. IsClean (S.Store.view store.new) →
        IsAt ((S.Store.view store.old).trees table) id row.new found) }
    ensures reads { ReadsOrUndoes S.Store store.old store.new result }
{
    let outcome = store.get(table, id, row);
    if outcome.is_err() {
        store.rollback();
    }
    outcome
}

/// Reads the row that was found, if one was.
pub(crate) fn read_found<L: Layout, R: Record<L>>(
    alloc: Global,
    found: Result<bool, StoreError>,
    row: &Row,
) -> Result<Option<(i64, R)>, StoreError>
    ensures read { IfOk result (IsReadOf R.cells found row.now) }
    ensures fits { IfOk result (λ read. IfSome read (λ it. R.is_storable it.1)) }
{
    if found? {
        Ok(Some(read_row(alloc, row)?))
    } else {
        Ok(None)
    }
}
