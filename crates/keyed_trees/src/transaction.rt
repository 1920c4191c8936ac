//! Tables outside a transaction and inside one, as two types, so that only a transaction is written
//! to.

ghost use Rattle.std.specs.Prelude.{◌≡◌, ◌∷◌, All, IfErr, IfOk, IfSome, IsTrue, OnErr, OnOk, map};
ghost use Rattle.sqlite.specs.State.{HasCleanDisk, Survives};
ghost use Rattle.sqlite_trees.specs.View.{IsClean, IsQuiet};
ghost use Rattle.sqlite_value.specs.declared.value.Value.TheVariants.{Int};
ghost use Rattle.keyed_trees.specs.Calls.{Reads, Answers, Undoes, Writes};
ghost use Rattle.keyed_trees.specs.Effects.{AddsAt, AppendsTo, PutsInto, RemovesFrom, SetsByKey};
ghost use Rattle.keyed_trees.specs.Files.{IsFileOf, MayStand};
ghost use Rattle.keyed_trees.specs.Frames.{Follows, IsKeptOrUndone, Live};
ghost use Rattle.keyed_trees.specs.Kept.{state};
ghost use Rattle.keyed_trees.specs.Rows.{Finds, FindsAt, ReadsAll, ReadsRange, has_key, row_of};
ghost use Rattle.keyed_trees.specs.Stages.{HasBegun, HasCommitted, HasGoneBack, HasMarked, HasReleased};

use crate::layout::{Key, Layout, Record};
use crate::range::Range;
use crate::tables::Tables;
use sqlite_trees::error::StoreError;
use sqlite_trees::store::Store;
use sqlite_value::row::Row;
use std::alloc::Global;
use std::marker::Model;

/// Tables with no open transaction.
#[derive(Drop)]
pub struct Committed<S: Store, L: Layout> {
    tables: Tables<S, L>,
}

impl<S: Store, L: Layout> Model for Committed<S, L> {
    ghost use Rattle.std.specs.Prelude.{◌≡◌, false};
    ghost use Rattle.keyed_trees.specs.Kept.{Kept, kept_code};

    ghost Value = { Kept S };

    ghost coded = { kept_code S.code };

    ghost view = { λ q. q.tables };

    ghost invariant = { λ q. q.tables.in_transaction ≡ false };
}

/// An open transaction. A call that fails may have ended it, and then each later write fails too.
#[derive(Drop)]
pub struct Transaction<S: Store, L: Layout> {
    tables: Tables<S, L>,
}

impl<S: Store, L: Layout> Model for Transaction<S, L> {
    ghost use Rattle.keyed_trees.specs.Kept.{Kept, kept_code};

    ghost Value = { Kept S };

    ghost coded = { kept_code S.code };

    ghost view = { λ t. t.tables };
}

impl<S: Store, L: Layout> Committed<S, L> {
    /// Tables over a store, as `Tables::over` makes them.
    pub fn over(alloc: Global, store: S) -> Result<Committed<S, L>, S>
        requires { IsFileOf L.Layout S.Store store }
        ensures trees { IfOk result (λ q. IsClean (S.Store.view q.store) →
            (S.Store.view q.store).trees ≡ (S.Store.view store).committed) }
        ensures open { IfOk result (λ q. IsClean (S.Store.view q.store) →
            IsTrue (S.Store.view q.store).is_open) }
        ensures quiet { IfOk result (λ q. IsQuiet S.Store.view S.Store.faults S.Store.recovers
            S.Store.is_shielded store q.store) }
        ensures unharmed { IfErr result (λ left. IsQuiet S.Store.view S.Store.faults
            S.Store.recovers S.Store.is_shielded store left) }
        ensures kept { IfErr result (IsFileOf L.Layout S.Store) }
    {
        match Tables::over(alloc, store) {
            Ok(tables) => Ok(Committed { tables }),
            Err(store) => Err(store),
        }
    }

    /// Whether the store is open: false after a failure that only another opening mends.
    pub fn is_open(&self) -> bool
        ensures { IsClean (S.Store.view self.now.store) →
            result ≡ (S.Store.view self.now.store).is_open }
    {
        self.tables.is_open()
    }

    /// The store, as when a file is to be closed.
    pub fn into_store(self) -> S
        ensures same { result ≡ self.store }
        ensures file { IsFileOf L.Layout S.Store result }
    {
        let Committed { tables } = self;
        tables.into_store()
    }

    /// Opens a transaction.
    pub fn begin(self) -> Result<Transaction<S, L>, Committed<S, L>>
        ensures begun { IfOk result (λ t. IsClean (S.Store.view t.store) → HasBegun
            (state L.Layout.schema S.Store self) (state L.Layout.schema S.Store t)) }
        ensures follows { IfOk result (λ t. Follows (state L.Layout.schema S.Store self)
            (state L.Layout.schema S.Store t)) }
        ensures failed { IfErr result (λ q. Follows (state L.Layout.schema S.Store self)
            (state L.Layout.schema S.Store q)) }
    {
        let Committed { mut tables } = self;
        match tables.begin() {
            Ok(()) => Ok(Transaction { tables }),
            Err(_) => Err(Committed { tables }),
        }
    }

    /// A row that has the key, if one has.
    pub fn find<K: Key<L>>(&mut self, key: &Row) -> Result<Option<(i64, K::Of)>, StoreError>
        ensures found { Answers (λ trees found. Finds K.Of.Record.cells (has_key K.Key.shape key.now)
            (trees K.Key.shape.table) found) S.Store self.old self.new result }
        ensures fits { IfOk result (λ found. IfSome found (λ it. K.Of.Record.is_storable it.1)) }
        ensures reads { Reads L.Layout.schema S.Store self.old self.new result }
    {
        self.tables.find::<K>(key)
    }

    /// The row at a rowid, if there is one.
    pub fn find_at<R: Record<L>>(&mut self, id: i64) -> Result<Option<(i64, R)>, StoreError>
        ensures found { Answers (λ trees found. FindsAt R.Record.cells id
            (trees R.Record.table) found) S.Store self.old self.new result }
        ensures fits { IfOk result (λ found. IfSome found (λ it. R.Record.is_storable it.1)) }
        ensures reads { Reads L.Layout.schema S.Store self.old self.new result }
    {
        self.tables.find_at(id)
    }

    /// The first rows of a range of a key, at most `most` of them.
    pub fn range<K: Key<L>>(
        &mut self,
        range: &Range<'_>,
        most: u64,
    ) -> Result<Vec<(i64, K::Of)>, StoreError>
        ensures read { Answers (λ trees read. ReadsRange K.Of.Record.cells K.Key.shape
            range.now.direction range.now.start.now range.now.stop.now most
            (trees K.Key.shape.table) read.items) S.Store self.old self.new result }
        ensures fits { IfOk result (λ read. All (λ it. K.Of.Record.is_storable it.1) read.items) }
        ensures reads { Reads L.Layout.schema S.Store self.old self.new result }
    {
        self.tables.range::<K>(range, most)
    }

    /// All rows of a range of a key.
    pub fn all_in_range<K: Key<L>>(
        &mut self,
        range: &Range<'_>,
    ) -> Result<Vec<(i64, K::Of)>, StoreError>
        ensures read { Answers (λ trees read. ReadsAll K.Of.Record.cells K.Key.shape
            range.now.direction range.now.start.now range.now.stop.now
            (trees K.Key.shape.table) read.items) S.Store self.old self.new result }
        ensures fits { IfOk result (λ read. All (λ it. K.Of.Record.is_storable it.1) read.items) }
        ensures reads { Reads L.Layout.schema S.Store self.old self.new result }
    {
        self.tables.all_in_range::<K>(range)
    }

    /// All rows of a table, in the order of their rowids.
    pub fn rows<R: Record<L>>(&mut self) -> Result<Vec<(i64, R)>, StoreError>
        ensures read { Answers (λ trees read.
            map (row_of R.Record.cells) read.items ≡ trees R.Record.table)
            S.Store self.old self.new result }
        ensures fits { IfOk result (λ read. All (λ it. R.Record.is_storable it.1) read.items) }
        ensures reads { Reads L.Layout.schema S.Store self.old self.new result }
    {
        self.tables.rows()
    }
}

impl<S: Store, L: Layout> Transaction<S, L> {
    /// Commits the transaction. A crash in it leaves what was committed before or what was written.
    pub fn commit(self) -> (Result<(), StoreError>, Committed<S, L>)
        requires { Live (state L.Layout.schema S.Store self) →
            L.Layout.is_whole (state L.Layout.schema S.Store self).now.trees }
        ensures ok { HasCleanDisk (state L.Layout.schema S.Store result.1) → OnOk result.0 (HasCommitted
            (state L.Layout.schema S.Store self) (state L.Layout.schema S.Store result.1)) }
        ensures err { HasCleanDisk (state L.Layout.schema S.Store result.1) → OnErr result.0 (IsKeptOrUndone
            (state L.Layout.schema S.Store self) (state L.Layout.schema S.Store result.1)) }
        ensures survives { Survives (state L.Layout.schema S.Store self)
            (state L.Layout.schema S.Store result.1)
            (λ db. db ≡ (state L.Layout.schema S.Store self).now.trees) }
    {
        let Transaction { mut tables } = self;
        let outcome = tables.commit();
        (outcome, Committed { tables })
    }

    /// Undoes the transaction.
    pub fn rollback(self) -> Committed<S, L>
        ensures { Undoes L.Layout.schema S.Store self result }
    {
        let Transaction { mut tables } = self;
        tables.rollback();
        Committed { tables }
    }

    /// A row that has the key, if one has.
    pub fn find<K: Key<L>>(&mut self, key: &Row) -> Result<Option<(i64, K::Of)>, StoreError>
        ensures found { Answers (λ trees found. Finds K.Of.Record.cells (has_key K.Key.shape key.now)
            (trees K.Key.shape.table) found) S.Store self.old self.new result }
        ensures fits { IfOk result (λ found. IfSome found (λ it. K.Of.Record.is_storable it.1)) }
        ensures reads { Reads L.Layout.schema S.Store self.old self.new result }
    {
        self.tables.find::<K>(key)
    }

    /// The row at a rowid, if there is one.
    pub fn find_at<R: Record<L>>(&mut self, id: i64) -> Result<Option<(i64, R)>, StoreError>
        ensures found { Answers (λ trees found. FindsAt R.Record.cells id
            (trees R.Record.table) found) S.Store self.old self.new result }
        ensures fits { IfOk result (λ found. IfSome found (λ it. R.Record.is_storable it.1)) }
        ensures reads { Reads L.Layout.schema S.Store self.old self.new result }
    {
        self.tables.find_at(id)
    }

    /// The first rows of a range of a key, at most `most` of them.
    pub fn range<K: Key<L>>(
        &mut self,
        range: &Range<'_>,
        most: u64,
    ) -> Result<Vec<(i64, K::Of)>, StoreError>
        ensures read { Answers (λ trees read. ReadsRange K.Of.Record.cells K.Key.shape
            range.now.direction range.now.start.now range.now.stop.now most
            (trees K.Key.shape.table) read.items) S.Store self.old self.new result }
        ensures fits { IfOk result (λ read. All (λ it. K.Of.Record.is_storable it.1) read.items) }
        ensures reads { Reads L.Layout.schema S.Store self.old self.new result }
    {
        self.tables.range::<K>(range, most)
    }

    /// All rows of a range of a key.
    pub fn all_in_range<K: Key<L>>(
        &mut self,
        range: &Range<'_>,
    ) -> Result<Vec<(i64, K::Of)>, StoreError>
        ensures read { Answers (λ trees read. ReadsAll K.Of.Record.cells K.Key.shape
            range.now.direction range.now.start.now range.now.stop.now
            (trees K.Key.shape.table) read.items) S.Store self.old self.new result }
        ensures fits { IfOk result (λ read. All (λ it. K.Of.Record.is_storable it.1) read.items) }
        ensures reads { Reads L.Layout.schema S.Store self.old self.new result }
    {
        self.tables.all_in_range::<K>(range)
    }

    /// All rows of a table, in the order of their rowids.
    pub fn rows<R: Record<L>>(&mut self) -> Result<Vec<(i64, R)>, StoreError>
        ensures read { Answers (λ trees read.
            map (row_of R.Record.cells) read.items ≡ trees R.Record.table)
            S.Store self.old self.new result }
        ensures fits { IfOk result (λ read. All (λ it. R.Record.is_storable it.1) read.items) }
        ensures reads { Reads L.Layout.schema S.Store self.old self.new result }
    {
        self.tables.rows()
    }

    /// Adds a row after all others of its table.
    pub fn add<R: Record<L>>(&mut self, content: &R) -> Result<(), StoreError>
        requires fits { R.Record.is_storable content.now }
        requires row { MayStand L.Layout S.Store self.old.store R.Record.table
            (R.Record.cells content.now) }
        ensures { Writes (AppendsTo L.Layout.keys R.Record.table (R.Record.cells content.now))
            L.Layout.schema S.Store self.old self.new result }
    {
        self.tables.add(content)
    }

    /// Adds a row at a rowid that no row has. Where one has it the call fails.
    pub fn add_at<R: Record<L>>(&mut self, id: i64, content: &R) -> Result<(), StoreError>
        requires fits { R.Record.is_storable content.now }
        requires row { MayStand L.Layout S.Store self.old.store R.Record.table
            (R.Record.cells content.now) }
        ensures { Writes (AddsAt L.Layout.keys R.Record.table id (R.Record.cells content.now))
            L.Layout.schema S.Store self.old self.new result }
    {
        self.tables.add_at(id, content)
    }

    /// Puts a row at a rowid, in place of the one that has it.
    pub fn put<R: Record<L>>(&mut self, id: i64, content: &R) -> Result<(), StoreError>
        requires fits { R.Record.is_storable content.now }
        requires row { MayStand L.Layout S.Store self.old.store R.Record.table
            (R.Record.cells content.now) }
        ensures { Writes (PutsInto L.Layout.keys R.Record.table (Int id ∷ R.Record.cells content.now))
            L.Layout.schema S.Store self.old self.new result }
    {
        self.tables.put(id, content)
    }

    /// Sets the columns of the row that has the key, if one has.
    pub fn set<K: Key<L>>(&mut self, key: &Row, content: &K::Of) -> Result<(), StoreError>
        requires fits { K.Of.Record.is_storable content.now }
        requires row { MayStand L.Layout S.Store self.old.store K.Key.shape.table
            (K.Of.Record.cells content.now) }
        ensures { Writes (SetsByKey L.Layout.keys K.Key.shape key.now (K.Of.Record.cells content.now))
            L.Layout.schema S.Store self.old self.new result }
    {
        self.tables.set::<K>(key, content)
    }

    /// Removes the row at a rowid, if there is one.
    pub fn remove<R: Record<L>>(&mut self, id: i64) -> Result<(), StoreError>
        ensures { Writes (RemovesFrom L.Layout.keys R.Record.table id)
            L.Layout.schema S.Store self.old self.new result }
    {
        self.tables.remove::<R>(id)
    }

    /// Marks where to go back to.
    pub fn mark(&mut self) -> Result<(), StoreError>
        ensures { Writes HasMarked L.Layout.schema S.Store self.old self.new result }
    {
        self.tables.mark()
    }

    /// Drops the newest mark, and keeps what was written since.
    pub fn release_mark(&mut self) -> Result<(), StoreError>
        ensures { Writes HasReleased L.Layout.schema S.Store self.old self.new result }
    {
        self.tables.release_mark()
    }

    /// Goes back to the newest mark, which stays. With no mark nothing changes.
    pub fn back_to_mark(&mut self) -> Result<(), StoreError>
        ensures { Writes HasGoneBack L.Layout.schema S.Store self.old self.new result }
    {
        self.tables.back_to_mark()
    }
}
