use crate::BalanceRow;
use crate::cell::{wide, wide_column};
use amount::Amount;
use records::{Balances, Sums};

/// A row of the table `balance`, without its column `tenant`.
#[derive(Clone, Copy, Debug, PartialEq, Eq)]
pub struct BalanceCells {
    pub account: [u8; 16],
    /// debits_pending
    pub dp: [u8; 16],
    /// debits_posted
    pub dd: [u8; 16],
    /// credits_pending
    pub cp: [u8; 16],
    /// credits_posted
    pub cc: [u8; 16],
}

impl BalanceCells {
    ghost use Rattle.std.specs.Prelude.{◌≡◌};
    ghost use Rattle.rows.specs.declared.balance_row.BalanceRow.{BalanceRow};
    ghost use Rattle.rows.specs.Cells.{balance_cells};
    ghost use Rattle.rows.specs.Widths.{IsStorableBalance};

    /// The cells of a balance row.
    pub fn from_row(row: &BalanceRow) -> Self
        ensures { result ≡ balance_cells row.now }
    {
        BalanceCells {
            account: wide_column(row.account),
            dp: row.balances.debits.pending.to_column(),
            dd: row.balances.debits.posted.to_column(),
            cp: row.balances.credits.pending.to_column(),
            cc: row.balances.credits.posted.to_column(),
        }
    }

    /// The row that has these cells. All cells of this table are within their widths.
    pub fn to_row(&self) -> BalanceRow
        ensures cells { self.now ≡ balance_cells result }
        ensures fits { IsStorableBalance result }
        ensures undoes { (row : BalanceRow) →
            IsStorableBalance row → self.now ≡ balance_cells row → result ≡ row }
    {
        BalanceRow {
            account: wide(self.account),
            balances: Balances {
                debits: Sums {
                    pending: Amount::new(wide(self.dp)),
                    posted: Amount::new(wide(self.dd)),
                },
                credits: Sums {
                    pending: Amount::new(wide(self.cp)),
                    posted: Amount::new(wide(self.cc)),
                },
            },
        }
    }
}
