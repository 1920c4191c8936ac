ghost use Rattle.ledger_sql.specs.Entries.{entry_values};

use crate::entry_cells::EntryCells;
use crate::read::{Columns, ReadRow};
use records::Unavailable;
use rows::{HistoryCells, TransferCells};

impl ReadRow for EntryCells {
    ghost values = { entry_values };

    fn read(columns: &mut Columns<'_>) -> Result<EntryCells, Unavailable> {
        Ok(EntryCells {
            history: HistoryCells::read(columns)?,
            transfer: TransferCells::read(columns)?,
        })
    }
}
