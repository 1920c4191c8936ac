//! How a row of values is read as the cells of a table.

ghost use Rattle.std.specs.Prelude.{◌≡◌, Option, Ok, Err, is_some, option_map, IfOk, IfSome};
ghost use Rattle.sqlite_value.specs.Order.{Row as Values};

mod account;
mod balance;
mod columns;
mod directory;
mod entry;
mod history;
mod numbers;
mod status;
mod transfer;

use crate::table_fault::TableFault;
pub(crate) use columns::Columns;
use records::Unavailable;
use sqlite::Row;

/// A row of a table, or of a few of its columns.
pub(crate) trait ReadRow: Sized + Drop {
    ghost use Rattle.std.specs.Prelude.{◌++◌};
    ghost use Rattle.ledger_sql.specs.Columns.{left};

    /// The values in which SQL has it.
    ghost values: { Self → Values };

    /// That each field is within the width of its column.
    ghost is_storable: { Self → Type 0 } = { λ _. Unit {0} };

    fn read(columns: &mut Columns<'_>) -> Result<Self, Unavailable>
        ensures values { IfOk result (λ read. left columns.old ≡ values read ++ left columns.new) }
        ensures fits { IfOk result is_storable };
}

/// A row with no column beyond.
pub(crate) fn read_row<T: ReadRow>(row: &Row) -> Result<T, Unavailable>
    ensures values { IfOk result (λ read. row.now ≡ T.values read) }
    ensures fits { IfOk result T.is_storable }
{
    let mut columns = Columns::of(row);
    let read = T::read(&mut columns)?;
    if !columns.is_empty() {
        return Err(Unavailable::Size);
    }
    Ok(read)
}

/// What was found, read.
pub(crate) fn read_found<T: ReadRow>(
    found: Result<Option<Row>, TableFault>,
) -> Result<Option<T>, Unavailable>
    ensures values { IfOk result (λ read. found ≡ Ok (option_map T.values read)) }
    ensures fits { IfOk result (λ read. IfSome read T.is_storable) }
{
    match found? {
        Some(row) => Ok(Some(read_row(&row)?)),
        None => Ok(None),
    }
}

/// Whether a row was found.
pub(crate) fn was_found(found: Result<Option<Row>, TableFault>) -> Result<bool, Unavailable>
    ensures { IfOk result
        (λ there. (row : Option Values) × (found ≡ Ok row) × (there ≡ is_some row)) }
{
    Ok(found?.is_some())
}
