ghost use Rattle.rows.specs.Cells.{account_cells};
ghost use Rattle.rows.specs.Widths.{IsStorableAccount};
ghost use Rattle.ledger_sql.specs.Values.{account_values};

use crate::read::{Columns, ReadRow};
use records::{Account, Unavailable};
use rows::AccountCells;

impl ReadRow for AccountCells {
    ghost values = { account_values };

    fn read(columns: &mut Columns<'_>) -> Result<AccountCells, Unavailable> {
        Ok(AccountCells {
            id: columns.bytes()?,
            user_data_128: columns.bytes()?,
            user_data_64: columns.bytes()?,
            user_data_32: columns.whole()?,
            ledger: columns.whole()?,
            code: columns.whole()?,
            flags: columns.whole()?,
            timestamp: columns.whole()?,
        })
    }
}

impl ReadRow for Account {
    ghost values = { λ account. account_values (account_cells account) };

    ghost is_storable = { IsStorableAccount };

    fn read(columns: &mut Columns<'_>) -> Result<Account, Unavailable> {
        AccountCells::read(columns)?
            .to_account()
            .ok_or(Unavailable::Size)
    }
}
