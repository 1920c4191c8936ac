//! Where a transaction begins and ends, and its marks.

ghost use Rattle.std.specs.Prelude.{◌≡◌, false, IsTrue, OnErr, OnOk};
ghost use Rattle.std.specs.Bool.{OnFalse, OnTrue};
ghost use Rattle.sqlite.specs.State.{HasCleanDisk, Survives};
ghost use Rattle.sqlite_trees.specs.View.{IsClean};
ghost use Rattle.keyed_trees.specs.Calls.{Undoes, Writes};
ghost use Rattle.keyed_trees.specs.Frames.{IsKeptOrUndone, Live};
ghost use Rattle.keyed_trees.specs.Kept.{state};
ghost use Rattle.keyed_trees.specs.Serving.{IsActive};
ghost use Rattle.keyed_trees.specs.Stages.{HasBegun, HasCommitted, HasGoneBack, HasMarked, HasReleased};

use super::Tables;
use crate::layout::Layout;
use crate::marks;
use sqlite_trees::error::StoreError;
use sqlite_trees::store::Store;

impl<S: Store, L: Layout> Tables<S, L> {
    /// Opens a transaction. Where one is open already, it is undone.
    pub fn begin(&mut self) -> Result<(), StoreError>
        ensures begun { Writes HasBegun L.Layout.schema S.Store self.old self.new result }
        ensures over { OnErr result (self.new.in_transaction ≡ false) }
    {
        if self.in_transaction || self.store.is_broken() {
            self.rollback();
            return Err(StoreError::Broken);
        }
        self.in_transaction = true;
        Ok(())
    }

    /// Commits the transaction. A crash in it leaves what was committed before or what was written.
    pub fn commit(&mut self) -> Result<(), StoreError>
        requires { Live (state L.Layout.schema S.Store self.old) →
            L.Layout.is_whole (state L.Layout.schema S.Store self.old).now.trees }
        ensures over { self.new.in_transaction ≡ false }
        ensures ok { HasCleanDisk (state L.Layout.schema S.Store self.new) → OnOk result (HasCommitted
            (state L.Layout.schema S.Store self.old) (state L.Layout.schema S.Store self.new)) }
        ensures err { HasCleanDisk (state L.Layout.schema S.Store self.new) → OnErr result (IsKeptOrUndone
            (state L.Layout.schema S.Store self.old) (state L.Layout.schema S.Store self.new)) }
        ensures survives { Survives (state L.Layout.schema S.Store self.old)
            (state L.Layout.schema S.Store self.new)
            (λ db. db ≡ (state L.Layout.schema S.Store self.old).now.trees) }
    {
        if !self.stays_active() {
            return Err(StoreError::Broken);
        }
        self.commit_inside()
    }

    /// Undoes the transaction, if one is open.
    pub fn rollback(&mut self)
        ensures over { self.new.in_transaction ≡ false }
        ensures undone { Undoes L.Layout.schema S.Store self.old self.new }
    {
        self.store.rollback();
        self.in_transaction = false;
        self.next.forget_all();
    }

    /// Marks in a transaction where to go back to.
    pub fn mark(&mut self) -> Result<(), StoreError>
        ensures { Writes HasMarked L.Layout.schema S.Store self.old self.new result }
    {
        if !self.stays_active() {
            return Err(StoreError::Broken);
        }
        self.mark_inside()
    }

    /// Drops the newest mark, and keeps what was written since.
    pub fn release_mark(&mut self) -> Result<(), StoreError>
        ensures { Writes HasReleased L.Layout.schema S.Store self.old self.new result }
    {
        if !self.stays_active() {
            return Err(StoreError::Broken);
        }
        self.release_inside()
    }

    /// Goes back to the newest mark, which stays. With no mark nothing changes.
    pub fn back_to_mark(&mut self) -> Result<(), StoreError>
        ensures { Writes HasGoneBack L.Layout.schema S.Store self.old self.new result }
    {
        if !self.stays_active() {
            return Err(StoreError::Broken);
        }
        self.back_inside()
    }

    /// Whether a transaction is open. One whose store is shut is over from here on.
    pub(super) fn stays_active(&mut self) -> bool
        ensures same { OnTrue result (self.new ≡ self.old) }
        ensures active { OnTrue result (IsActive S.Store self.new) }
        ensures over { OnFalse result (self.new.in_transaction ≡ false) }
        ensures undone { OnFalse result (Undoes L.Layout.schema S.Store self.old self.new) }
    {
        if self.is_active() {
            return true;
        }
        self.in_transaction = false;
        false
    }

    fn is_active(&self) -> bool
        ensures active { IsTrue result → IsActive S.Store self.now }
        ensures over { result ≡ false → IsClean (S.Store.view self.now.store) →
            IsTrue (S.Store.view self.now.store).is_open → self.now.in_transaction ≡ false }
    {
        self.in_transaction && !self.store.is_broken()
    }

    fn commit_inside(&mut self) -> Result<(), StoreError>
        requires active { IsActive S.Store self.old }
        requires whole { Live (state L.Layout.schema S.Store self.old) →
            L.Layout.is_whole (state L.Layout.schema S.Store self.old).now.trees }
        ensures over { self.new.in_transaction ≡ false }
        ensures ok { HasCleanDisk (state L.Layout.schema S.Store self.new) → OnOk result (HasCommitted
            (state L.Layout.schema S.Store self.old) (state L.Layout.schema S.Store self.new)) }
        ensures err { HasCleanDisk (state L.Layout.schema S.Store self.new) → OnErr result (IsKeptOrUndone
            (state L.Layout.schema S.Store self.old) (state L.Layout.schema S.Store self.new)) }
        ensures survives { Survives (state L.Layout.schema S.Store self.old)
            (state L.Layout.schema S.Store self.new)
            (λ db. db ≡ (state L.Layout.schema S.Store self.old).now.trees) }
    {
        self.in_transaction = false;
        let outcome = self.store.commit();
        if outcome.is_err() {
            self.next.forget_all();
        }
        outcome
    }

    fn mark_inside(&mut self) -> Result<(), StoreError>
        requires { IsActive S.Store self.old }
        ensures { Writes HasMarked L.Layout.schema S.Store self.old self.new result }
    {
        let outcome = marks::mark(&mut self.store);
        if outcome.is_err() {
            self.in_transaction = false;
            self.next.forget_all();
        }
        outcome
    }

    fn release_inside(&mut self) -> Result<(), StoreError>
        requires { IsActive S.Store self.old }
        ensures { Writes HasReleased L.Layout.schema S.Store self.old self.new result }
    {
        let outcome = marks::release(&mut self.store);
        if outcome.is_err() {
            self.in_transaction = false;
            self.next.forget_all();
        }
        outcome
    }

    fn back_inside(&mut self) -> Result<(), StoreError>
        requires { IsActive S.Store self.old }
        ensures { Writes HasGoneBack L.Layout.schema S.Store self.old self.new result }
    {
        let outcome = marks::back(&mut self.store);
        self.next.forget_all();
        if outcome.is_err() {
            self.in_transaction = false;
        }
        outcome
    }
}
