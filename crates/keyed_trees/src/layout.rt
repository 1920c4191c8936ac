//! How a caller describes its tables, their rows and their keys.

ghost use Rattle.std.specs.Prelude.{◌≡◌, ◌≢◌, ◌++◌, ℕ, List, map, Contains, IfOk, OnOk};
ghost use Rattle.sqlite_value.specs.Order.{Row as Cells, column};
ghost use Rattle.std.specs.List.{AllByRecursion};
ghost use Rattle.sqlite_trees.specs.Objects.{catalog_tree};
ghost use Rattle.sqlite_trees.specs.Tree.{IsAscending, Trees};
ghost use Rattle.sqlite_schema.specs.declared.schema.Schema.{Schema};
ghost use Rattle.sqlite_exec.specs.Plan.{as_rowid};
ghost use Rattle.keyed_trees.specs.Columns.{unread};
ghost use Rattle.keyed_trees.specs.Layout.{KeyShape, key_of};
ghost use Rattle.keyed_trees.specs.Rows.{columns_of, row_of};

use crate::columns::Columns;
use sqlite_sql::query::Index;
use sqlite_trees::error::StoreError;
use sqlite_value::row::Row;
use sqlite_value::value::ValueRef;
use std::alloc::{AllocError, Global};

/// The tables of a file and their keys.
pub trait Layout {
    /// The schema that SQL has of the tables.
    ghost schema: { Schema };

    /// The tree of each table.
    ghost tables: { List ℕ };

    /// Every key of the file's tables.
    ghost keys: { List KeyShape };

    /// A row, with its rowid, may stand in the table with this tree.
    ghost is_row: { ℕ → Cells → Type 0 };

    /// The rows of the list of objects are those of these tables.
    ghost is_listed: { List Cells → Type 0 };

    /// What more is asked of trees that are committed.
    ghost is_whole: { Trees → Type 0 };

    fn tables() -> &'static [u32]
        ensures { result.now ≡ tables };

    fn catalog() -> &'static [Index<'static>]
        ensures { map key_of result.now ≡ keys };

    /// Each key has a tree of its own.
    ghost apart: { IsAscending (λ one other. one.tree ≢ other.tree) keys };

    /// No table and no key is the list of objects.
    ghost unlisted: { AllByRecursion (λ t. t ≢ catalog_tree) tables
        × AllByRecursion (λ k. (k.tree ≢ catalog_tree) × (k.table ≢ catalog_tree)) keys };
}

/// The rows of one table: the values of their columns, which come after the rowid.
pub trait Record<L: Layout>: Sized + Drop {
    /// The table's tree.
    ghost table: { ℕ };

    /// The values of the columns.
    ghost cells: { Self → Cells };

    /// Each field is within the width of its column.
    ghost is_storable: { Self → Type 0 } = { λ _. Unit {0} };

    fn table() -> u32
        ensures { result ≡ table };

    /// Appends the values of the columns.
    fn write(&self, row: &mut Row) -> Result<(), AllocError>
        requires { is_storable self.now }
        ensures { OnOk result (row.new ≡ row.old ++ cells self.now) };

    fn read(columns: &mut Columns<'_>) -> Result<Self, StoreError>
        ensures values { IfOk result (λ it. unread columns.old ≡ cells it ++ unread columns.new) }
        ensures fits { IfOk result is_storable };

    ghost listed: { Contains L.Layout.tables table };
}

/// A unique key of a table.
pub trait Key<L: Layout> {
    type Of: Record<L>;

    ghost shape: { KeyShape };

    fn index() -> Index<'static>
        ensures { key_of result ≡ shape };

    ghost listed: { Contains L.Layout.keys shape };
}

/// Reads a row as its rowid and a record. A row with other columns is `Unstorable`.
pub(crate) fn read_row<L: Layout, R: Record<L>>(
    alloc: Global,
    row: &Row,
) -> Result<(i64, R), StoreError>
    ensures values { IfOk result (λ it. row.now ≡ row_of R.cells it) }
    ensures fits { IfOk result (λ it. R.is_storable it.1) }
{
    let Some(id) = rowid_at(row, 0) else {
        return Err(StoreError::Unstorable);
    };
    Ok((id, read_columns(alloc, row)?))
}

/// Reads the columns of a row as a record. A row with other columns is `Unstorable`.
fn read_columns<L: Layout, R: Record<L>>(alloc: Global, row: &Row) -> Result<R, StoreError>
    ensures values { IfOk result (λ it. columns_of row.now ≡ R.cells it) }
    ensures fits { IfOk result R.is_storable }
{
    let mut columns = Columns::of(alloc, row);
    let read = R::read(&mut columns)?;
    if !columns.is_empty() {
        return Err(StoreError::Unstorable);
    }
    Ok(read)
}

/// The rowid in a column of a row or an entry.
pub(crate) fn rowid_at(row: &Row, at: usize) -> Option<i64>
    ensures { result ≡ as_rowid (column row.now at) }
{
    match row.get(at) {
        ValueRef::Int(id) => Some(id),
        _ => None,
    }
}
