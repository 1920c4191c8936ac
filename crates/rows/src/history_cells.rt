use crate::HistoryRow;
use crate::cell::{unsigned, wide, wide_column};
use amount::Amount;
use records::{Balances, Sums};

/// A row of the table `history`, without its column `tenant`.
#[derive(Clone, Copy, Debug, PartialEq, Eq)]
pub struct HistoryCells {
    pub account: [u8; 16],
    /// In nanoseconds.
    pub timestamp: i64,
    /// debits_pending
    pub dp: [u8; 16],
    /// debits_posted
    pub dd: [u8; 16],
    /// credits_pending
    pub cp: [u8; 16],
    /// credits_posted
    pub cc: [u8; 16],
}

impl HistoryCells {
    ghost use Rattle.std.specs.Prelude.{◌≡◌, ◌<◌, ◌^◌, Some, IfSome};
    ghost use Rattle.rows.specs.declared.history_row.HistoryRow.{HistoryRow};
    ghost use Rattle.rows.specs.Cells.{history_cells};
    ghost use Rattle.rows.specs.Widths.{IsStorableHistory};

    /// The cells of a history row.
    pub fn from_row(row: &HistoryRow) -> Self
        requires { row.now.timestamp < 2 ^ 63 }
        ensures { result ≡ history_cells row.now }
    {
        HistoryCells {
            account: wide_column(row.account),
            timestamp: row.timestamp as i64,
            dp: row.balances.debits.pending.to_column(),
            dd: row.balances.debits.posted.to_column(),
            cp: row.balances.credits.pending.to_column(),
            cc: row.balances.credits.posted.to_column(),
        }
    }

    /// The row that has these cells; none where the timestamp is negative.
    pub fn to_row(&self) -> Option<HistoryRow>
        ensures cells { IfSome result (λ row. self.now ≡ history_cells row) }
        ensures fits { IfSome result IsStorableHistory }
        ensures undoes { (row : HistoryRow) →
            IsStorableHistory row → self.now ≡ history_cells row → result ≡ Some row }
    {
        Some(HistoryRow {
            account: wide(self.account),
            timestamp: unsigned(self.timestamp)?,
            balances: Balances {
                debits: Sums {
                    pending: Amount::new(wide(self.dp)),
                    posted: Amount::new(wide(self.dd)),
                },
                credits: Sums {
                    pending: Amount::new(wide(self.cp)),
                    posted: Amount::new(wide(self.cc)),
                },
            },
        })
    }
}
