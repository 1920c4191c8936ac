//! A new row of a table, after all others or at a rowid.

ghost use Rattle.std.specs.Prelude.{◌≡◌, ◌∷◌, false, IfOk, OnOk, IsTrue};
ghost use Rattle.std.specs.Option.{ForSome};
ghost use Rattle.sqlite_value.specs.declared.value.Value.TheVariants.{Int};
ghost use Rattle.sqlite_trees.specs.View.{IsClean};
ghost use Rattle.sqlite_exec.specs.Calls.{IsReady};
ghost use Rattle.sqlite_rules.specs.Edit.{next_rowid as next_in};
ghost use Rattle.keyed_trees.specs.StoreCalls.{AddsRowAt, AppendsRow, ReadsOrUndoes, ReadsStore};
ghost use Rattle.keyed_trees.specs.StoreCalls.{WritesOrUndoes};

use crate::finding::find_at;
use crate::layout::{Layout, Record};
use sqlite_exec::work::Workspace;
use sqlite_exec::write;
use sqlite_rules::edit::id_in;
use sqlite_sql::query::Index;
use sqlite_trees::error::StoreError;
use sqlite_trees::store::{Shape, Store};
use sqlite_value::row::Row;
use sqlite_value::value::ValueRef;
use std::alloc::AllocError;

/// Adds a row at the next rowid of its table, and returns that rowid. A failure undoes the
/// transaction.
pub(crate) fn append<S: Store, L: Layout, R: Record<L>>(
    store: &mut S,
    work: &mut Workspace,
    catalog: &[Index<'_>],
    known: Option<i64>,
    content: &R,
    row: &mut Row,
) -> Result<i64, StoreError>
    requires fits { R.is_storable content.now }
    requires ready { IsClean (S.Store.view store.old) → IsReady (S.Store.view store.old) catalog.now }
    requires table { IsClean (S.Store.view store.old) → (S.Store.view store.old).shape R.table ≡ Shape.Table }
    requires sound { IsClean (S.Store.view store.old) → (S.Store.view store.old).is_broken ≡ false }
    requires known { ForSome known (λ id. IsClean (S.Store.view store.old) →
        next_in ((S.Store.view store.old).trees R.table) ≡ id) }
    ensures id { IfOk result (λ id. IsClean (S.Store.view store.new) →
        next_in ((S.Store.view store.old).trees R.table) ≡ id) }
    ensures added { WritesOrUndoes S.Store (AppendsRow catalog.now R.table (R.cells content.now))
        store.old store.new result }
{
    let id = known_or_next(store, R::table(), known, row)?;
    if write_row(row, id, content).is_err() {
        store.rollback();
        return Err(StoreError::OutOfMemory);
    }
    write::insert(store, work, catalog, R::table(), row)?;
    Ok(id)
}

/// Adds a row at a rowid that no row has. Where one has it, the call fails. A failure undoes the
/// transaction.
pub(crate) fn add_at<S: Store, L: Layout, R: Record<L>>(
    store: &mut S,
    work: &mut Workspace,
    catalog: &[Index<'_>],
    id: i64,
    content: &R,
    row: &mut Row,
) -> Result<(), StoreError>
    requires fits { R.is_storable content.now }
    requires ready { IsClean (S.Store.view store.old) → IsReady (S.Store.view store.old) catalog.now }
    requires table { IsClean (S.Store.view store.old) → (S.Store.view store.old).shape R.table ≡ Shape.Table }
    ensures { WritesOrUndoes S.Store (AddsRowAt catalog.now R.table id (R.cells content.now))
        store.old store.new result }
{
    if find_at(store, R::table(), id, row)? {
        store.rollback();
        return Err(StoreError::Unstorable);
    }
    if write_row(row, id, content).is_err() {
        store.rollback();
        return Err(StoreError::OutOfMemory);
    }
    write::insert(store, work, catalog, R::table(), row)
}

/// The table's next rowid, as it is known or as the table is read for it. A failure undoes the
/// transaction.
fn known_or_next<S: Store>(
    store: &mut S,
    table: u32,
    known: Option<i64>,
    last: &mut Row,
) -> Result<i64, StoreError>
    requires table { IsClean (S.Store.view store.old) → (S.Store.view store.old).shape table ≡ Shape.Table }
    requires sound { IsClean (S.Store.view store.old) → (S.Store.view store.old).is_broken ≡ false }
    requires known { ForSome known (λ id. IsClean (S.Store.view store.old) →
        next_in ((S.Store.view store.old).trees table) ≡ id) }
    ensures next { IfOk result (λ id. IsClean (S.Store.view store.new) →
        next_in ((S.Store.view store.old).trees table) ≡ id) }
    ensures reads { ReadsOrUndoes S.Store store.old store.new result }
{
    if let Some(id) = known {
        return Ok(id);
    }
    let outcome = next_rowid(store, table, last);
    if outcome.is_err() {
        store.rollback();
    }
    outcome
}

/// One above the table's last rowid, or `Unstorable` where that is the highest there is.
fn next_rowid<S: Store>(store: &mut S, table: u32, last: &mut Row) -> Result<i64, StoreError>
    requires { IsClean (S.Store.view store.old) → (S.Store.view store.old).shape table ≡ Shape.Table }
    ensures next { IfOk result (λ id. IsClean (S.Store.view store.new) →
        next_in ((S.Store.view store.old).trees table) ≡ id) }
    ensures reads { ReadsStore S.Store store.old store.new result }
{
    if !write::last(store, table, last)? {
        return Ok(1);
    }
    match id_in(last.get(0)).checked_add(1) {
        Some(id) => Ok(id),
        None => Err(StoreError::Unstorable),
    }
}

/// Writes over `row` a record with its rowid.
pub(crate) fn write_row<L: Layout, R: Record<L>>(
    row: &mut Row,
    id: i64,
    content: &R,
) -> Result<(), AllocError>
    requires { R.is_storable content.now }
    ensures { OnOk result (row.new ≡ Int id ∷ R.cells content.now) }
{
    row.clear();
    row.push(ValueRef::Int(id))?;
    content.write(row)
}
