ghost use Rattle.records.specs.Widths.{IsAccountInWidth, IsAccountEventInWidth};

use crate::AccountFlags;
use crate::width::{fits_u16, fits_u32, fits_u64, fits_u128};
use amount::Amount;

/// An account as it was opened. It has no balances: these are sums over the transfers.
#[derive(Clone, Copy, Debug, PartialEq, Eq, Default)]
pub struct Account {
    /// Neither 0 nor the greatest number.
    pub id: u128,
    pub user_data_128: u128,
    pub user_data_64: u64,
    pub user_data_32: u32,
    /// Accounts of one ledger may transfer to each other. Never 0.
    pub ledger: u32,
    /// What kind of account it is, for its owner. Never 0.
    pub code: u16,
    pub flags: AccountFlags,
    /// When it was opened, in nanoseconds, unique among the tenant's accounts and transfers.
    pub timestamp: u64,
}

/// A request to open an account.
#[derive(Clone, Copy, Debug, PartialEq, Eq, Default)]
pub struct AccountEvent {
    pub id: u128,
    /// Must be 0, as the other three balances.
    pub debits_pending: Amount,
    pub debits_posted: Amount,
    pub credits_pending: Amount,
    pub credits_posted: Amount,
    pub user_data_128: u128,
    pub user_data_64: u64,
    pub user_data_32: u32,
    pub ledger: u32,
    pub code: u16,
    pub flags: AccountFlags,
    /// Must be 0: the ledger gives the timestamp.
    pub timestamp: u64,
}

impl Account {
    /// Tells that each field is within its width. It does nothing.
    pub fn widths(&self)
        ensures { IsAccountInWidth self.now }
    {
        fits_u128(self.id);
        fits_u128(self.user_data_128);
        fits_u64(self.user_data_64);
        fits_u32(self.user_data_32);
        fits_u32(self.ledger);
        fits_u16(self.code);
        fits_u16(self.flags.0);
        fits_u64(self.timestamp);
    }
}

impl AccountEvent {
    /// Tells that each field is within its width. It does nothing.
    pub fn widths(&self)
        ensures { IsAccountEventInWidth self.now }
    {
        fits_u128(self.id);
        fits_u128(self.debits_pending.value());
        fits_u128(self.debits_posted.value());
        fits_u128(self.credits_pending.value());
        fits_u128(self.credits_posted.value());
        fits_u128(self.user_data_128);
        fits_u64(self.user_data_64);
        fits_u32(self.user_data_32);
        fits_u32(self.ledger);
        fits_u16(self.code);
        fits_u16(self.flags.0);
        fits_u64(self.timestamp);
    }
}
