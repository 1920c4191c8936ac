//! Whether the trees of a store are those of a layout, by their shapes.

ghost use Rattle.std.specs.Prelude.{◌≡◌, ◌<◌, ◌^◌, ℕ, Any, IsTrue, false};
ghost use Rattle.std.specs.List.{AllByRecursion};
ghost use Rattle.sqlite_trees.specs.Tree.{IsIndexShape};
ghost use Rattle.sqlite_trees.specs.View.{IsClean};

use sqlite_exec::check;
use sqlite_sql::query::Index;
use sqlite_trees::store::{Shape, Store};

/// Whether the store is open, its trees have the shapes of these tables and keys, and there is no
/// other key.
pub(crate) fn fits<S: Store>(store: &S, tables: &[u32], catalog: &[Index<'_>]) -> bool
    ensures sound { IsTrue result → IsClean (S.Store.view store.now) →
        (S.Store.view store.now).is_broken ≡ false }
    ensures tables { IsTrue result →
        AllByRecursion (λ t. (S.Store.view store.now).shape t ≡ Shape.Table) tables.now }
    ensures keys { IsTrue result → AllByRecursion (λ i.
        ((S.Store.view store.now).shape i.tree ≡ Shape.Index i.order)
        × ((S.Store.view store.now).shape i.table ≡ Shape.Table)) catalog.now }
    ensures whole { IsTrue result → (t : ℕ) → t < 2 ^ 32 →
        IsIndexShape ((S.Store.view store.now).shape t) → Any (λ i. i.tree ≡ t) catalog.now }
{
    if store.is_broken() || !have_shapes(store, tables, catalog) {
        return false;
    }
    check::is_whole(store, catalog)
}

/// Whether the trees have the shapes of these tables and keys.
fn have_shapes<S: Store>(store: &S, tables: &[u32], catalog: &[Index<'_>]) -> bool
    ensures tables { IsTrue result →
        AllByRecursion (λ t. (S.Store.view store.now).shape t ≡ Shape.Table) tables.now }
    ensures keys { IsTrue result → AllByRecursion (λ i.
        ((S.Store.view store.now).shape i.tree ≡ Shape.Index i.order)
        × ((S.Store.view store.now).shape i.table ≡ Shape.Table)) catalog.now }
{
    tables
        .iter()
        .all(|table| store.shape(*table) == Shape::Table)
        && catalog.iter().all(|key| is_key(store, key))
}

fn is_key<S: Store>(store: &S, index: &Index<'_>) -> bool
    ensures { IsTrue result → ((S.Store.view store.now).shape index.now.tree ≡ Shape.Index index.now.order)
        × ((S.Store.view store.now).shape index.now.table ≡ Shape.Table) }
{
    store.shape(index.tree) == Shape::Index(index.order) && store.shape(index.table) == Shape::Table
}
