//! What the tables of a ledger have, in forms that a constant can say.

/// A column of a STRICT table, never NULL, by its name.
#[derive(Clone, Copy)]
pub(crate) enum ColumnForm<'a> {
    Whole(&'a [u8]),
    Bytes(&'a [u8]),
    Words(&'a [u8]),
}

/// The places of a key.
#[derive(Clone, Copy)]
pub(crate) struct KeyForm<'a>(pub &'a [usize]);

/// A CHECK of one column, which goes by its place in the row.
#[derive(Clone, Copy)]
pub(crate) enum CheckForm {
    /// The column is this number.
    Equals(usize, i64),
    /// The column has so many bytes.
    Length(usize, i64),
}

/// A table. A place of its row is 0 for the INTEGER PRIMARY KEY, and `i + 1` for column `i`.
#[derive(Clone, Copy)]
pub(crate) struct TableForm<'a> {
    pub name: &'a [u8],
    pub tree: u32,
    pub columns: &'a [ColumnForm<'a>],
    pub key: Option<usize>,
    pub primary: &'a [usize],
    pub uniques: &'a [KeyForm<'a>],
    pub checks: &'a [CheckForm],
    /// The place of the column that names a tenant.
    pub tenant: Option<usize>,
}

/// An index that a UNIQUE makes.
#[derive(Clone, Copy)]
pub(crate) struct IndexForm<'a> {
    pub name: &'a [u8],
    pub tree: u32,
    pub table: u32,
    pub columns: &'a [usize],
}
