//! How the columns of a row are read and written.

ghost use Rattle.std.specs.Prelude.{◌≡◌, ◌++◌, OnOk, map};
ghost use Rattle.sqlite_value.specs.Value.{owned};

use sqlite_trees::error::StoreError;
use sqlite_value::row::Row;
use sqlite_value::value::ValueRef;
use std::alloc::{AllocError, Global};

/// The columns of a row that are still to be read. A read fails as `Unstorable` where no column is
/// left, or where the next has another type.
#[derive(Drop)]
pub struct Columns<'a> {
    alloc: Global,
    row: &'a Row,
    next: usize,
}

impl<'a> Columns<'a> {
    ghost use Rattle.std.specs.Prelude.{◌≡◌, [], ◌∷◌, FitsSigned, IfOk, IsTrue, OnOk, string_bytes};
    ghost use Rattle.std.specs.Int.{w64};
    ghost use Rattle.sqlite_value.specs.Value.{owned};
    ghost use Rattle.sqlite_value.specs.Order.{column};
    ghost use Rattle.sqlite_value.specs.declared.value.Value.TheVariants.{Null, Int, Text, Blob};
    ghost use Rattle.keyed_trees.specs.Columns.{unread};
    ghost use Rattle.keyed_trees.specs.Rows.{columns_of};

    /// All columns of a row, which come after its rowid.
    pub(crate) fn of(alloc: Global, row: &'a Row) -> Columns<'a>
        ensures { unread result ≡ columns_of row.now }
    {
        Columns {
            alloc,
            row,
            next: 1,
        }
    }

    /// Whether all are read.
    pub(crate) fn is_empty(&self) -> bool
        ensures { IsTrue result → unread self.now ≡ [] }
    {
        self.row.len() <= self.next
    }

    /// The place of the next column, which counts as read from then on.
    fn pass(&mut self) -> Result<usize, StoreError>
        ensures same { self.new.row ≡ self.old.row }
        ensures place { IfOk result
            (λ at. unread self.old ≡ column self.old.row.now at ∷ unread self.new) }
    {
        let at = self.next;
        if self.row.len() <= at {
            return Err(StoreError::Unstorable);
        }
        self.next = at + 1;
        Ok(at)
    }

    /// Reads the next column.
    fn take(&mut self) -> Result<ValueRef<'a>, StoreError>
        ensures { IfOk result (λ value. unread self.old ≡ owned value ∷ unread self.new) }
    {
        let at = self.pass()?;
        Ok(self.row.get(at))
    }

    /// Reads NULL, which stands in a column that is the rowid.
    pub fn null(&mut self) -> Result<(), StoreError>
        ensures { OnOk result (unread self.old ≡ Null ∷ unread self.new) }
    {
        match self.take()? {
            ValueRef::Null => Ok(()),
            _ => Err(StoreError::Unstorable),
        }
    }

    /// Reads `N` bytes.
    pub fn bytes<const N: usize>(&mut self) -> Result<[u8; N], StoreError>
        ensures { IfOk result (λ bytes. unread self.old ≡ Blob bytes ∷ unread self.new) }
    {
        match self.take()? {
            ValueRef::Blob(bytes) => bytes.try_into().map_err(|_| StoreError::Unstorable),
            _ => Err(StoreError::Unstorable),
        }
    }

    /// Reads a text.
    pub fn text(&mut self) -> Result<String, StoreError>
        ensures { IfOk result (λ text. unread self.old ≡ Text (string_bytes text) ∷ unread self.new) }
    {
        match self.take()? {
            ValueRef::Text(text) => match std::str::from_utf8(text) {
                Ok(text) => Ok(String::from_str(self.alloc, text)?),
                Err(_) => Err(StoreError::Unstorable),
            },
            _ => Err(StoreError::Unstorable),
        }
    }

    /// Reads a whole number.
    pub fn integer(&mut self) -> Result<i64, StoreError>
        ensures number { IfOk result (λ number. unread self.old ≡ Int number ∷ unread self.new) }
        ensures fits { IfOk result (λ number. FitsSigned w64 number) }
    {
        match self.take()? {
            ValueRef::Int(number) => Ok(number),
            _ => Err(StoreError::Unstorable),
        }
    }
}

/// Appends these values to a row.
pub fn write_values(row: &mut Row, values: &[ValueRef<'_>]) -> Result<(), AllocError>
    ensures { OnOk result (row.new ≡ row.old ++ map owned values.now) }
{
    for value in values {
        row.push(*value)?;
    }
    Ok(())
}
