use crate::cell::{short, short_column, small, tiny, unsigned, wide, wide_column};
use amount::Amount;
use records::{Transfer, TransferFlags};

/// A row of the table `transfer`, without its column `tenant`. The numbers are as the file has
/// them, also negative ones and such as no transfer has.
#[derive(Clone, Copy, Debug, PartialEq, Eq)]
pub struct TransferCells {
    pub id: [u8; 16],
    pub debit: [u8; 16],
    pub credit: [u8; 16],
    pub amount: [u8; 16],
    pub pending_id: [u8; 16],
    pub user_data_128: [u8; 16],
    pub user_data_64: [u8; 8],
    pub user_data_32: i64,
    /// In seconds.
    pub timeout: i64,
    pub ledger: i64,
    pub code: i64,
    pub flags: i64,
    /// In nanoseconds.
    pub timestamp: i64,
    /// The clock of its batch, in nanoseconds.
    pub at_clock: i64,
}

impl TransferCells {
    ghost use Rattle.std.specs.Prelude.{◌≡◌, ◌<◌, ◌^◌, Some, IfSome};
    ghost use Rattle.records.specs.declared.transfer.Transfer.{Transfer};
    ghost use Rattle.rows.specs.Cells.{transfer_cells};
    ghost use Rattle.rows.specs.Widths.{IsStorableTransfer};

    /// The cells of a transfer.
    pub fn from_transfer(transfer: &Transfer) -> Self
        requires timestamp { transfer.now.timestamp < 2 ^ 63 }
        requires at { transfer.now.at < 2 ^ 63 }
        ensures { result ≡ transfer_cells transfer.now }
    {
        TransferCells {
            id: wide_column(transfer.id),
            debit: wide_column(transfer.debit_account_id),
            credit: wide_column(transfer.credit_account_id),
            amount: transfer.amount.to_column(),
            pending_id: wide_column(transfer.pending_id),
            user_data_128: wide_column(transfer.user_data_128),
            user_data_64: short_column(transfer.user_data_64),
            user_data_32: i64::from(transfer.user_data_32),
            timeout: i64::from(transfer.timeout),
            ledger: i64::from(transfer.ledger),
            code: i64::from(transfer.code),
            flags: i64::from(transfer.flags.0),
            timestamp: transfer.timestamp as i64,
            at_clock: transfer.at as i64,
        }
    }

    /// The transfer that has these cells; none where a number is negative or beyond its field's
    /// width.
    pub fn to_transfer(&self) -> Option<Transfer>
        ensures cells { IfSome result (λ transfer. self.now ≡ transfer_cells transfer) }
        ensures fits { IfSome result IsStorableTransfer }
        ensures undoes { (transfer : Transfer) →
            IsStorableTransfer transfer → self.now ≡ transfer_cells transfer →
            result ≡ Some transfer }
    {
        Some(Transfer {
            id: wide(self.id),
            debit_account_id: wide(self.debit),
            credit_account_id: wide(self.credit),
            amount: Amount::new(wide(self.amount)),
            pending_id: wide(self.pending_id),
            user_data_128: wide(self.user_data_128),
            user_data_64: short(self.user_data_64),
            user_data_32: small(self.user_data_32)?,
            timeout: small(self.timeout)?,
            ledger: small(self.ledger)?,
            code: tiny(self.code)?,
            flags: TransferFlags(tiny(self.flags)?),
            timestamp: unsigned(self.timestamp)?,
            at: unsigned(self.at_clock)?,
        })
    }
}
