//! Marks of a transaction. A call that fails undoes the transaction.

ghost use Rattle.std.specs.Prelude.{◌≡◌};
ghost use Rattle.keyed_trees.specs.StoreCalls.{GoesBackOrStays, WritesOrUndoes};
ghost use Rattle.sqlite_trees.specs.View.{Marks, Releases};

use sqlite_trees::error::StoreError;
use sqlite_trees::store::Store;

/// Marks what the transaction sees.
pub(crate) fn mark<S: Store>(store: &mut S) -> Result<(), StoreError>
    ensures { WritesOrUndoes S.Store Marks store.old store.new result }
{
    let outcome = store.savepoint();
    if outcome.is_err() {
        store.rollback();
    }
    outcome
}

/// Drops the newest mark.
pub(crate) fn release<S: Store>(store: &mut S) -> Result<(), StoreError>
    ensures { WritesOrUndoes S.Store Releases store.old store.new result }
{
    let outcome = store.release();
    if outcome.is_err() {
        store.rollback();
    }
    outcome
}

/// Goes back to the newest mark, which stays. With no mark nothing changes.
pub(crate) fn back<S: Store>(store: &mut S) -> Result<(), StoreError>
    ensures { WritesOrUndoes S.Store GoesBackOrStays store.old store.new result }
{
    let outcome = store.rollback_to();
    if outcome.is_err() {
        store.rollback();
    }
    outcome
}
