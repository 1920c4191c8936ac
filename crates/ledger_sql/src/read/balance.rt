ghost use Rattle.rows.specs.Cells.{balance_cells};
ghost use Rattle.rows.specs.Widths.{IsStorableBalance};
ghost use Rattle.ledger_sql.specs.Values.{balance_values};

use crate::read::{Columns, ReadRow};
use records::Unavailable;
use rows::{BalanceCells, BalanceRow};

impl ReadRow for BalanceCells {
    ghost values = { balance_values };

    fn read(columns: &mut Columns<'_>) -> Result<BalanceCells, Unavailable> {
        Ok(BalanceCells {
            account: columns.bytes()?,
            dp: columns.bytes()?,
            dd: columns.bytes()?,
            cp: columns.bytes()?,
            cc: columns.bytes()?,
        })
    }
}

impl ReadRow for BalanceRow {
    ghost values = { λ balance. balance_values (balance_cells balance) };

    ghost is_storable = { IsStorableBalance };

    fn read(columns: &mut Columns<'_>) -> Result<BalanceRow, Unavailable> {
        Ok(BalanceCells::read(columns)?.to_row())
    }
}
