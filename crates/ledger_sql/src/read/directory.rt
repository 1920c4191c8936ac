ghost use Rattle.std.specs.Prelude.{string_bytes};
ghost use Rattle.ledger_sql.specs.Values.{directory_values};

use crate::read::{Columns, ReadRow};
use records::Unavailable;
use rows::DirectoryRow;

impl ReadRow for DirectoryRow {
    ghost values = { λ row. directory_values row.number (string_bytes row.name) row.digest };

    fn read(columns: &mut Columns<'_>) -> Result<DirectoryRow, Unavailable> {
        Ok(DirectoryRow {
            number: columns.whole()?,
            name: columns.text()?,
            digest: columns.bytes()?,
        })
    }
}
