ghost use Rattle.rows.specs.Cells.{transfer_cells};
ghost use Rattle.rows.specs.Widths.{IsStorableTransfer};
ghost use Rattle.ledger_sql.specs.Values.{transfer_values};

use crate::read::{Columns, ReadRow};
use records::{Transfer, Unavailable};
use rows::TransferCells;

impl ReadRow for TransferCells {
    ghost values = { transfer_values };

    fn read(columns: &mut Columns<'_>) -> Result<TransferCells, Unavailable> {
        Ok(TransferCells {
            id: columns.bytes()?,
            debit: columns.bytes()?,
            credit: columns.bytes()?,
            amount: columns.bytes()?,
            pending_id: columns.bytes()?,
            user_data_128: columns.bytes()?,
            user_data_64: columns.bytes()?,
            user_data_32: columns.whole()?,
            timeout: columns.whole()?,
            ledger: columns.whole()?,
            code: columns.whole()?,
            flags: columns.whole()?,
            timestamp: columns.whole()?,
            at_clock: columns.whole()?,
        })
    }
}

impl ReadRow for Transfer {
    ghost values = { λ transfer. transfer_values (transfer_cells transfer) };

    ghost is_storable = { IsStorableTransfer };

    fn read(columns: &mut Columns<'_>) -> Result<Transfer, Unavailable> {
        TransferCells::read(columns)?
            .to_transfer()
            .ok_or(Unavailable::Size)
    }
}
