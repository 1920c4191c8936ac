//! Rows that are found by a key or at a rowid, and rows in order.

ghost use Rattle.std.specs.Prelude.{◌≡◌, All, Contains, IfOk, IfSome, map};
ghost use Rattle.sqlite_trees.specs.View.{Finds as IsAt};
ghost use Rattle.keyed_trees.specs.Calls.{Reads, Answers};
ghost use Rattle.keyed_trees.specs.Layout.{key_of};
ghost use Rattle.keyed_trees.specs.Rows.{Finds, FindsAt, FindsRow, ReadsAll, ReadsRange};
ghost use Rattle.keyed_trees.specs.Rows.{has_key, row_of};
ghost use Rattle.keyed_trees.specs.Serving.{StaysOut};

use super::Tables;
use crate::finding::{self, read_found};
use crate::layout::{Key, Layout, Record};
use crate::range::{Range, read_range};
use crate::scanning;
use sqlite_sql::query::Index;
use sqlite_trees::error::StoreError;
use sqlite_trees::store::Store;
use sqlite_value::row::Row;

impl<S: Store, L: Layout> Tables<S, L> {
    /// A row that has the key, if one has.
    pub fn find<K: Key<L>>(&mut self, key: &Row) -> Result<Option<(i64, K::Of)>, StoreError>
        ensures found { Answers (λ trees found. Finds K.Of.Record.cells (has_key K.Key.shape key.now)
            (trees K.Key.shape.table) found) S.Store self.old self.new result }
        ensures fits { IfOk result (λ found. IfSome found (λ it. K.Of.Record.is_storable it.1)) }
        ensures reads { Reads L.Layout.schema S.Store self.old self.new result }
        ensures out { StaysOut self.old self.new }
    {
        let mut row = self.take_row();
        let found = self.find_row(&K::index(), key, &mut row);
        let outcome = read_found(self.alloc, found, &row);
        self.buffers.row = row;
        outcome
    }

    /// The row at a rowid, if there is one.
    pub fn find_at<R: Record<L>>(&mut self, id: i64) -> Result<Option<(i64, R)>, StoreError>
        ensures found { Answers (λ trees found. FindsAt R.Record.cells id
            (trees R.Record.table) found) S.Store self.old self.new result }
        ensures fits { IfOk result (λ found. IfSome found (λ it. R.Record.is_storable it.1)) }
        ensures reads { Reads L.Layout.schema S.Store self.old self.new result }
        ensures out { StaysOut self.old self.new }
    {
        let mut row = self.take_row();
        let found = self.find_row_at(R::table(), id, &mut row);
        let outcome = read_found(self.alloc, found, &row);
        self.buffers.row = row;
        outcome
    }

    /// The first rows of a range of a key, at most `most` of them.
    pub fn range<K: Key<L>>(
        &mut self,
        range: &Range<'_>,
        most: u64,
    ) -> Result<Vec<(i64, K::Of)>, StoreError>
        ensures read { Answers (λ trees read. ReadsRange K.Of.Record.cells K.Key.shape
            range.now.direction range.now.start.now range.now.stop.now most
            (trees K.Key.shape.table) read.items) S.Store self.old self.new result }
        ensures fits { IfOk result (λ read. All (λ it. K.Of.Record.is_storable it.1) read.items) }
        ensures reads { Reads L.Layout.schema S.Store self.old self.new result }
        ensures out { StaysOut self.old self.new }
    {
        self.range_of(&K::index(), range, most)
    }

    /// All rows of a range of a key.
    pub fn all_in_range<K: Key<L>>(
        &mut self,
        range: &Range<'_>,
    ) -> Result<Vec<(i64, K::Of)>, StoreError>
        ensures read { Answers (λ trees read. ReadsAll K.Of.Record.cells K.Key.shape
            range.now.direction range.now.start.now range.now.stop.now
            (trees K.Key.shape.table) read.items) S.Store self.old self.new result }
        ensures fits { IfOk result (λ read. All (λ it. K.Of.Record.is_storable it.1) read.items) }
        ensures reads { Reads L.Layout.schema S.Store self.old self.new result }
        ensures out { StaysOut self.old self.new }
    {
        let read = self.range::<K>(range, u64::MAX)?;
        if read.len() as u64 == u64::MAX {
            return Err(StoreError::OutOfMemory);
        }
        Ok(read)
    }

    /// All rows of a table, in the order of their rowids.
    pub fn rows<R: Record<L>>(&mut self) -> Result<Vec<(i64, R)>, StoreError>
        ensures read { Answers (λ trees read.
            map (row_of R.Record.cells) read.items ≡ trees R.Record.table)
            S.Store self.old self.new result }
        ensures fits { IfOk result (λ read. All (λ it. R.Record.is_storable it.1) read.items) }
        ensures reads { Reads L.Layout.schema S.Store self.old self.new result }
        ensures out { StaysOut self.old self.new }
    {
        let outcome = scanning::read_rows(&mut self.store, self.alloc, &mut self.buffers.row);
        if outcome.is_err() {
            self.in_transaction = false;
            self.next.forget_all();
        }
        outcome
    }

    fn take_row(&mut self) -> Row
        ensures { self.new ≡ self.old }
    {
        std::mem::replace(&mut self.buffers.row, Row::new(self.alloc))
    }

    fn find_row(&mut self, index: &Index<'_>, key: &Row, row: &mut Row) -> Result<bool, StoreError>
        requires { Contains L.Layout.keys (key_of index.now) }
        ensures found { Answers (λ trees found. FindsRow (has_key (key_of index.now) key.now)
            (trees index.now.table) row.new found) S.Store self.old self.new result }
        ensures reads { Reads L.Layout.schema S.Store self.old self.new result }
        ensures out { StaysOut self.old self.new }
    {
        let outcome = finding::find(&mut self.store, index, key, &mut self.buffers.entry, row);
        if outcome.is_err() {
            self.in_transaction = false;
            self.next.forget_all();
        }
        outcome
    }

    fn find_row_at(&mut self, table: u32, id: i64, row: &mut Row) -> Result<bool, StoreError>
        requires { Contains L.Layout.tables table }
        ensures found { Answers (λ trees found. IsAt (trees table) id row.new found)
            S.Store self.old self.new result }
        ensures reads { Reads L.Layout.schema S.Store self.old self.new result }
        ensures out { StaysOut self.old self.new }
    {
        let outcome = finding::find_at(&mut self.store, table, id, row);
        if outcome.is_err() {
            self.in_transaction = false;
            self.next.forget_all();
        }
        outcome
    }

    fn range_of<R: Record<L>>(
        &mut self,
        index: &Index<'_>,
        range: &Range<'_>,
        most: u64,
    ) -> Result<Vec<(i64, R)>, StoreError>
        requires { Contains L.Layout.keys (key_of index.now) }
        ensures read { Answers (λ trees read. ReadsRange R.Record.cells (key_of index.now)
            range.now.direction range.now.start.now range.now.stop.now most
            (trees index.now.table) read.items) S.Store self.old self.new result }
        ensures fits { IfOk result (λ read. All (λ it. R.Record.is_storable it.1) read.items) }
        ensures reads { Reads L.Layout.schema S.Store self.old self.new result }
        ensures out { StaysOut self.old self.new }
    {
        let outcome = read_range(
            &mut self.store,
            self.alloc,
            index,
            range,
            most,
            &mut self.buffers,
        );
        if outcome.is_err() {
            self.in_transaction = false;
            self.next.forget_all();
        }
        outcome
    }
}
