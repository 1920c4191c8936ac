ghost use Rattle.std.specs.Prelude.{◌≡◌};
ghost use Rattle.records.specs.Sides.{account_on, event_account_on};
ghost use Rattle.records.specs.Facts.{account_id_of};
ghost use Rattle.records.specs.Reads.{is_entry_of, side_of};
ghost use Rattle.records.specs.Widths.{IsTransferInWidth, IsTransferEventInWidth};

use crate::width::{fits_u16, fits_u32, fits_u64, fits_u128};
use crate::{PendingTransfer, Side, TransferFlags};
use amount::Amount;

/// A transfer as it was accepted: in a post or void the fields that it takes from its pending
/// transfer are filled in, and a balancing amount is lowered already.
#[derive(Clone, Copy, Debug, PartialEq, Eq, Default)]
pub struct Transfer {
    /// Neither 0 nor the greatest number.
    pub id: u128,
    pub debit_account_id: u128,
    pub credit_account_id: u128,
    pub amount: Amount,
    /// The pending transfer that a post or void ends, else 0.
    pub pending_id: u128,
    pub user_data_128: u128,
    pub user_data_64: u64,
    pub user_data_32: u32,
    /// In seconds after the timestamp, for a pending transfer; 0 is never.
    pub timeout: u32,
    pub ledger: u32,
    pub code: u16,
    pub flags: TransferFlags,
    /// In nanoseconds, unique among the tenant's accounts and transfers.
    pub timestamp: u64,
    /// The clock of its batch, in nanoseconds. No reply shows it.
    pub at: u64,
}

/// A request for a transfer.
#[derive(Clone, Copy, Debug, PartialEq, Eq, Default)]
pub struct TransferEvent {
    pub id: u128,
    pub debit_account_id: u128,
    pub credit_account_id: u128,
    pub amount: Amount,
    pub pending_id: u128,
    pub user_data_128: u128,
    pub user_data_64: u64,
    pub user_data_32: u32,
    /// In seconds, for a pending transfer only.
    pub timeout: u32,
    pub ledger: u32,
    pub code: u16,
    pub flags: TransferFlags,
    /// Must be 0: the ledger gives the timestamp.
    pub timestamp: u64,
}

impl Transfer {
    /// The account that it has on this side.
    pub fn account_on(&self, side: Side) -> u128
        ensures { result ≡ account_on side self.now }
    {
        match side {
            Side::Debit => self.debit_account_id,
            Side::Credit => self.credit_account_id,
        }
    }

    /// Whether it has the account on either side.
    pub fn is_entry_of(&self, account: u128) -> bool
        ensures { result ≡ is_entry_of account self.now }
    {
        self.debit_account_id == account || self.credit_account_id == account
    }

    /// The side on which it has the account; credit where it has it on neither.
    pub fn side_of(&self, account: u128) -> Side
        ensures { result ≡ side_of account self.now }
    {
        if self.debit_account_id == account {
            Side::Debit
        } else {
            Side::Credit
        }
    }

    /// Tells that each field is within its width. It does nothing.
    pub fn widths(&self)
        ensures { IsTransferInWidth self.now }
    {
        fits_u128(self.id);
        fits_u128(self.debit_account_id);
        fits_u128(self.credit_account_id);
        fits_u128(self.amount.value());
        fits_u128(self.pending_id);
        fits_u128(self.user_data_128);
        fits_u64(self.user_data_64);
        fits_u32(self.user_data_32);
        fits_u32(self.timeout);
        fits_u32(self.ledger);
        fits_u16(self.code);
        fits_u16(self.flags.0);
        fits_u64(self.timestamp);
        fits_u64(self.at);
    }
}

impl TransferEvent {
    /// The account that it names on this side.
    pub fn account_on(&self, side: Side) -> u128
        ensures { result ≡ event_account_on side self.now }
    {
        let (debit, credit) = (self.debit_account_id, self.credit_account_id);
        match side {
            Side::Debit => debit,
            Side::Credit => credit,
        }
    }

    /// The account that it means on this side: the one that it names, or for a post or void that
    /// of its pending transfer.
    pub fn account_id(&self, side: Side, pending: &Option<PendingTransfer>) -> Option<u128>
        ensures { result ≡ account_id_of side self.now pending.now }
    {
        if self.flags.is_post_or_void() {
            pending.map(|pending| pending.transfer.account_on(side))
        } else {
            Some(self.account_on(side))
        }
    }

    /// Tells that each field is within its width. It does nothing.
    pub fn widths(&self)
        ensures { IsTransferEventInWidth self.now }
    {
        fits_u128(self.id);
        fits_u128(self.debit_account_id);
        fits_u128(self.credit_account_id);
        fits_u128(self.amount.value());
        fits_u128(self.pending_id);
        fits_u128(self.user_data_128);
        fits_u64(self.user_data_64);
        fits_u32(self.user_data_32);
        fits_u32(self.timeout);
        fits_u32(self.ledger);
        fits_u16(self.code);
        fits_u16(self.flags.0);
        fits_u64(self.timestamp);
    }
}
