//! Rows that are written inside a transaction. A call outside of one fails, and changes nothing.

ghost use Rattle.std.specs.Prelude.{◌≡◌, ◌∷◌, Contains};
ghost use Rattle.sqlite_value.specs.declared.value.Value.TheVariants.{Int};
ghost use Rattle.keyed_trees.specs.Calls.{Writes};
ghost use Rattle.keyed_trees.specs.Effects.{AddsAt, AppendsTo, PutsInto, RemovesFrom, SetsByKey};
ghost use Rattle.keyed_trees.specs.Files.{MayStand};
ghost use Rattle.keyed_trees.specs.Layout.{key_of};
ghost use Rattle.keyed_trees.specs.Serving.{IsActive};

use super::Tables;
use crate::layout::{Key, Layout, Record};
use crate::{adding, setting};
use sqlite_sql::query::Index;
use sqlite_trees::error::StoreError;
use sqlite_trees::store::Store;
use sqlite_value::row::Row;

impl<S: Store, L: Layout> Tables<S, L> {
    /// Adds a row after all others of its table.
    pub fn add<R: Record<L>>(&mut self, content: &R) -> Result<(), StoreError>
        requires fits { R.Record.is_storable content.now }
        requires row { MayStand L.Layout S.Store self.old.store R.Record.table
            (R.Record.cells content.now) }
        ensures { Writes (AppendsTo L.Layout.keys R.Record.table (R.Record.cells content.now))
            L.Layout.schema S.Store self.old self.new result }
    {
        if !self.stays_active() {
            return Err(StoreError::Broken);
        }
        self.add_inside(content)
    }

    /// Adds a row at a rowid that no row has. Where one has it the call fails.
    pub fn add_at<R: Record<L>>(&mut self, id: i64, content: &R) -> Result<(), StoreError>
        requires fits { R.Record.is_storable content.now }
        requires row { MayStand L.Layout S.Store self.old.store R.Record.table
            (R.Record.cells content.now) }
        ensures { Writes (AddsAt L.Layout.keys R.Record.table id (R.Record.cells content.now))
            L.Layout.schema S.Store self.old self.new result }
    {
        if !self.stays_active() {
            return Err(StoreError::Broken);
        }
        self.add_at_inside(id, content)
    }

    /// Puts a row at a rowid, in place of the one that has it.
    pub fn put<R: Record<L>>(&mut self, id: i64, content: &R) -> Result<(), StoreError>
        requires fits { R.Record.is_storable content.now }
        requires row { MayStand L.Layout S.Store self.old.store R.Record.table
            (R.Record.cells content.now) }
        ensures { Writes (PutsInto L.Layout.keys R.Record.table (Int id ∷ R.Record.cells content.now))
            L.Layout.schema S.Store self.old self.new result }
    {
        if !self.stays_active() {
            return Err(StoreError::Broken);
        }
        self.put_inside(id, content)
    }

    /// Sets the columns of the row that has the key, if one has.
    pub fn set<K: Key<L>>(&mut self, key: &Row, content: &K::Of) -> Result<(), StoreError>
        requires fits { K.Of.Record.is_storable content.now }
        requires row { MayStand L.Layout S.Store self.old.store K.Key.shape.table
            (K.Of.Record.cells content.now) }
        ensures { Writes (SetsByKey L.Layout.keys K.Key.shape key.now (K.Of.Record.cells content.now))
            L.Layout.schema S.Store self.old self.new result }
    {
        if !self.stays_active() {
            return Err(StoreError::Broken);
        }
        self.set_inside(&K::index(), key, content)
    }

    /// Removes the row at a rowid, if there is one.
    pub fn remove<R: Record<L>>(&mut self, id: i64) -> Result<(), StoreError>
        ensures { Writes (RemovesFrom L.Layout.keys R.Record.table id)
            L.Layout.schema S.Store self.old self.new result }
    {
        if !self.stays_active() {
            return Err(StoreError::Broken);
        }
        self.remove_inside(R::table(), id)
    }

    fn add_inside<R: Record<L>>(&mut self, content: &R) -> Result<(), StoreError>
        requires active { IsActive S.Store self.old }
        requires fits { R.Record.is_storable content.now }
        requires row { MayStand L.Layout S.Store self.old.store R.Record.table
            (R.Record.cells content.now) }
        ensures { Writes (AppendsTo L.Layout.keys R.Record.table (R.Record.cells content.now))
            L.Layout.schema S.Store self.old self.new result }
    {
        let known = self.next.get(R::table());
        match adding::append(
            &mut self.store,
            &mut self.buffers.work,
            self.catalog,
            known,
            content,
            &mut self.buffers.row,
        ) {
            Ok(id) => {
                self.next.pass(R::table(), id);
                Ok(())
            }
            Err(error) => {
                self.in_transaction = false;
                self.next.forget_all();
                Err(error)
            }
        }
    }

    fn put_inside<R: Record<L>>(&mut self, id: i64, content: &R) -> Result<(), StoreError>
        requires active { IsActive S.Store self.old }
        requires fits { R.Record.is_storable content.now }
        requires row { MayStand L.Layout S.Store self.old.store R.Record.table
            (R.Record.cells content.now) }
        ensures { Writes (PutsInto L.Layout.keys R.Record.table (Int id ∷ R.Record.cells content.now))
            L.Layout.schema S.Store self.old self.new result }
    {
        match setting::put(
            &mut self.store,
            &mut self.buffers.work,
            self.catalog,
            id,
            content,
            &mut self.buffers.row,
        ) {
            Ok(()) => {
                self.next.forget(R::table());
                Ok(())
            }
            Err(error) => {
                self.in_transaction = false;
                self.next.forget_all();
                Err(error)
            }
        }
    }

    fn set_inside<R: Record<L>>(
        &mut self,
        index: &Index<'_>,
        key: &Row,
        content: &R,
    ) -> Result<(), StoreError>
        requires active { IsActive S.Store self.old }
        requires fits { R.Record.is_storable content.now }
        requires row { MayStand L.Layout S.Store self.old.store index.now.table
            (R.Record.cells content.now) }
        requires listed { Contains L.Layout.keys (key_of index.now) }
        ensures { Writes (SetsByKey L.Layout.keys (key_of index.now) key.now (R.Record.cells content.now))
            L.Layout.schema S.Store self.old self.new result }
    {
        match setting::set(
            &mut self.store,
            self.catalog,
            index,
            key,
            content,
            &mut self.buffers,
        ) {
            Ok(()) => {
                self.next.forget(index.table);
                Ok(())
            }
            Err(error) => {
                self.in_transaction = false;
                self.next.forget_all();
                Err(error)
            }
        }
    }

    fn add_at_inside<R: Record<L>>(&mut self, id: i64, content: &R) -> Result<(), StoreError>
        requires active { IsActive S.Store self.old }
        requires fits { R.Record.is_storable content.now }
        requires row { MayStand L.Layout S.Store self.old.store R.Record.table
            (R.Record.cells content.now) }
        ensures { Writes (AddsAt L.Layout.keys R.Record.table id (R.Record.cells content.now))
            L.Layout.schema S.Store self.old self.new result }
    {
        match adding::add_at(
            &mut self.store,
            &mut self.buffers.work,
            self.catalog,
            id,
            content,
            &mut self.buffers.row,
        ) {
            Ok(()) => {
                self.next.forget(R::table());
                Ok(())
            }
            Err(error) => {
                self.in_transaction = false;
                self.next.forget_all();
                Err(error)
            }
        }
    }

    fn remove_inside(&mut self, table: u32, id: i64) -> Result<(), StoreError>
        requires active { IsActive S.Store self.old }
        requires listed { Contains L.Layout.tables table }
        ensures { Writes (RemovesFrom L.Layout.keys table id)
            L.Layout.schema S.Store self.old self.new result }
    {
        match setting::remove(
            &mut self.store,
            &mut self.buffers.work,
            self.catalog,
            table,
            id,
        ) {
            Ok(()) => {
                self.next.forget(table);
                Ok(())
            }
            Err(error) => {
                self.in_transaction = false;
                self.next.forget_all();
                Err(error)
            }
        }
    }
}
