ghost use Rattle.ledger_sql.specs.Values.{history_values};

use crate::read::{Columns, ReadRow};
use records::Unavailable;
use rows::HistoryCells;

impl ReadRow for HistoryCells {
    ghost values = { history_values };

    fn read(columns: &mut Columns<'_>) -> Result<HistoryCells, Unavailable> {
        Ok(HistoryCells {
            account: columns.bytes()?,
            timestamp: columns.whole()?,
            dp: columns.bytes()?,
            dd: columns.bytes()?,
            cp: columns.bytes()?,
            cc: columns.bytes()?,
        })
    }
}
