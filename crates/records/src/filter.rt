ghost use Rattle.std.specs.Prelude.{◌≡◌};
ghost use Rattle.records.specs.Flags.{has_bit};
ghost use Rattle.records.specs.Reads.{asks_side, asks_time, is_chosen};

use crate::Transfer;

/// The flag bits of a filter: 0 debits, 1 credits, 2 newest first.
#[derive(Clone, Copy, Debug, PartialEq, Eq)]
pub struct FilterFlags(pub u16);

impl FilterFlags {
    /// Bit 0: the entries are asked for that debit the account.
    pub fn asks_debits(self) -> bool
        ensures { result ≡ has_bit self.0 0 }
    {
        self.0 % 2 == 1
    }

    /// Bit 1: those are asked for that credit it.
    pub fn asks_credits(self) -> bool
        ensures { result ≡ has_bit self.0 1 }
    {
        (self.0 >> 1) % 2 == 1
    }

    /// Bit 2: the newest entry comes first.
    pub fn is_newest_first(self) -> bool
        ensures { result ≡ has_bit self.0 2 }
    {
        (self.0 >> 2) % 2 == 1
    }
}

/// Which transfers of an account are asked for.
#[derive(Clone, Copy, Debug, PartialEq, Eq)]
pub struct AccountFilter {
    pub account_id: u128,
    /// Inclusive, in nanoseconds; 0 is no bound.
    pub timestamp_min: u64,
    /// Inclusive, in nanoseconds; 0 is no bound.
    pub timestamp_max: u64,
    /// At most so many, 1 to 1,000.
    pub limit: u32,
    pub flags: FilterFlags,
}

impl AccountFilter {
    /// Whether it asks for the entry by its side.
    pub fn asks_side(&self, entry: &Transfer) -> bool
        ensures { result ≡ asks_side self.now entry.now }
    {
        (self.flags.asks_debits() && entry.debit_account_id == self.account_id)
            || (self.flags.asks_credits() && entry.credit_account_id == self.account_id)
    }

    /// Whether it asks for the entry by its timestamp.
    pub fn asks_time(&self, entry: &Transfer) -> bool
        ensures { result ≡ asks_time self.now entry.now }
    {
        self.timestamp_min <= entry.timestamp
            && (self.timestamp_max == 0 || entry.timestamp <= self.timestamp_max)
    }

    /// Whether it asks for the entry.
    pub fn is_chosen(&self, entry: &Transfer) -> bool
        ensures { result ≡ is_chosen self.now entry.now }
    {
        self.asks_side(entry) && self.asks_time(entry)
    }
}

/// The order of a statement.
#[derive(Clone, Copy, Debug, PartialEq, Eq)]
pub enum Order {
    Oldest,
    Newest,
}
