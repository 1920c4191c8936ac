use crate::cell::{short, short_column, small, tiny, unsigned, wide, wide_column};
use records::{Account, AccountFlags};

/// A row of the table `account`, without its column `tenant`. The numbers are as the file has them,
/// also negative ones and such as no account has.
#[derive(Clone, Copy, Debug, PartialEq, Eq)]
pub struct AccountCells {
    pub id: [u8; 16],
    pub user_data_128: [u8; 16],
    pub user_data_64: [u8; 8],
    pub user_data_32: i64,
    pub ledger: i64,
    pub code: i64,
    pub flags: i64,
    /// In nanoseconds.
    pub timestamp: i64,
}

impl AccountCells {
    ghost use Rattle.std.specs.Prelude.{◌≡◌, ◌<◌, ◌^◌, Some, IfSome};
    ghost use Rattle.records.specs.declared.account.Account.{Account};
    ghost use Rattle.rows.specs.Cells.{account_cells};
    ghost use Rattle.rows.specs.Widths.{IsStorableAccount};

    /// The cells of an account.
    pub fn from_account(account: &Account) -> Self
        requires { account.now.timestamp < 2 ^ 63 }
        ensures { result ≡ account_cells account.now }
    {
        AccountCells {
            id: wide_column(account.id),
            user_data_128: wide_column(account.user_data_128),
            user_data_64: short_column(account.user_data_64),
            user_data_32: i64::from(account.user_data_32),
            ledger: i64::from(account.ledger),
            code: i64::from(account.code),
            flags: i64::from(account.flags.0),
            timestamp: account.timestamp as i64,
        }
    }

    /// The account that has these cells; none where a number is negative or beyond its field's
    /// width.
    pub fn to_account(&self) -> Option<Account>
        ensures cells { IfSome result (λ account. self.now ≡ account_cells account) }
        ensures fits { IfSome result IsStorableAccount }
        ensures undoes { (account : Account) →
            IsStorableAccount account → self.now ≡ account_cells account → result ≡ Some account }
    {
        Some(Account {
            id: wide(self.id),
            user_data_128: wide(self.user_data_128),
            user_data_64: short(self.user_data_64),
            user_data_32: small(self.user_data_32)?,
            ledger: small(self.ledger)?,
            code: tiny(self.code)?,
            flags: AccountFlags(tiny(self.flags)?),
            timestamp: unsigned(self.timestamp)?,
        })
    }
}
