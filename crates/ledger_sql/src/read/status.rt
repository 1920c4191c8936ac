ghost use Rattle.rows.specs.Cells.{status_cells};
ghost use Rattle.rows.specs.Widths.{IsStorableStatus};
ghost use Rattle.ledger_sql.specs.Values.{status_values};

use crate::read::{Columns, ReadRow};
use records::Unavailable;
use rows::{StatusCells, StatusRow};

impl ReadRow for StatusCells {
    ghost values = { status_values };

    fn read(columns: &mut Columns<'_>) -> Result<StatusCells, Unavailable> {
        Ok(StatusCells {
            transfer: columns.bytes()?,
            state: columns.whole()?,
            due: columns.whole()?,
        })
    }
}

impl ReadRow for StatusRow {
    ghost values = { λ status. status_values (status_cells status) };

    ghost is_storable = { IsStorableStatus };

    fn read(columns: &mut Columns<'_>) -> Result<StatusRow, Unavailable> {
        StatusCells::read(columns)?
            .to_row()
            .ok_or(Unavailable::Size)
    }
}
