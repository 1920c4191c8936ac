//! A row that takes the place of another, or is removed.

ghost use Rattle.std.specs.Prelude.{◌≡◌, ◌∷◌};
ghost use Rattle.sqlite_value.specs.declared.value.Value.TheVariants.{Int};
ghost use Rattle.sqlite_trees.specs.Tree.{put_row};
ghost use Rattle.sqlite_trees.specs.View.{IsClean};
ghost use Rattle.sqlite_exec.specs.Calls.{IsReady, SetsTable};
ghost use Rattle.keyed_trees.specs.Layout.{key_of};
ghost use Rattle.keyed_trees.specs.StoreCalls.{PutsRow, RemovesRow, Serves, SetsKey, WritesOrUndoes};

use crate::adding::write_row;
use crate::buffers::Buffers;
use crate::finding::find;
use crate::layout::{Layout, Record};
use sqlite_exec::work::Workspace;
use sqlite_exec::write;
use sqlite_rules::edit::id_in;
use sqlite_sql::query::Index;
use sqlite_trees::error::StoreError;
use sqlite_trees::store::{Shape, Store};
use sqlite_value::row::Row;

/// Sets the columns of a row that has the key, if one has. A failure undoes the transaction.
pub(crate) fn set<S: Store, L: Layout, R: Record<L>>(
    store: &mut S,
    catalog: &[Index<'_>],
    index: &Index<'_>,
    key: &Row,
    content: &R,
    buffers: &mut Buffers,
) -> Result<(), StoreError>
    requires fits { R.is_storable content.now }
    requires ready { IsClean (S.Store.view store.old) → IsReady (S.Store.view store.old) catalog.now }
    requires served { IsClean (S.Store.view store.old) → Serves (key_of index.now) (S.Store.view store.old) }
    ensures { WritesOrUndoes S.Store
        (SetsKey catalog.now (key_of index.now) key.now (R.cells content.now))
        store.old store.new result }
{
    if !find(store, index, key, &mut buffers.entry, &mut buffers.row)? {
        return Ok(());
    }
    let id = id_in(buffers.row.get(0));
    if write_row(&mut buffers.row, id, content).is_err() {
        store.rollback();
        return Err(StoreError::OutOfMemory);
    }
    write::put(store, &mut buffers.work, catalog, index.table, &buffers.row)
}

/// Puts a row at a rowid, in place of the one that has it. A failure undoes the transaction.
pub(crate) fn put<S: Store, L: Layout, R: Record<L>>(
    store: &mut S,
    work: &mut Workspace,
    catalog: &[Index<'_>],
    id: i64,
    content: &R,
    row: &mut Row,
) -> Result<(), StoreError>
    requires fits { R.is_storable content.now }
    requires ready { IsClean (S.Store.view store.old) → IsReady (S.Store.view store.old) catalog.now }
    requires table { IsClean (S.Store.view store.old) → (S.Store.view store.old).shape R.table ≡ Shape.Table }
    ensures { WritesOrUndoes S.Store (PutsRow catalog.now R.table (Int id ∷ R.cells content.now))
        store.old store.new result }
{
    if write_row(row, id, content).is_err() {
        store.rollback();
        return Err(StoreError::OutOfMemory);
    }
    write::put(store, work, catalog, R::table(), row)
}

/// Removes the row at a rowid, if there is one. A failure undoes the transaction.
pub(crate) fn remove<S: Store>(
    store: &mut S,
    work: &mut Workspace,
    catalog: &[Index<'_>],
    table: u32,
    id: i64,
) -> Result<(), StoreError>
    requires ready { IsClean (S.Store.view store.old) → IsReady (S.Store.view store.old) catalog.now }
    requires table { IsClean (S.Store.view store.old) → (S.Store.view store.old).shape table ≡ Shape.Table }
    ensures { WritesOrUndoes S.Store (RemovesRow catalog.now table id) store.old store.new result }
{
    write::delete(store, work, catalog, table, id)
}
