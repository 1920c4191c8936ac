ghost use Rattle.std.specs.Prelude.{◌≡◌};
ghost use Rattle.records.specs.Flags.{has_bit};
ghost use Rattle.records.specs.Queries.{account_tags, transfer_tags, asks_tags};
ghost use Rattle.records.specs.Queries.{last_time, page_order, page_span};
ghost use Rattle.records.specs.Queries.{is_within};

use crate::{Account, Order, Transfer};

/// The most records that a page looks at, those that it shows among them.
pub const MOST_LOOKED_AT: u32 = 2000;

/// The records within a span of time, at most so many of them.
#[derive(Clone, Copy, Debug, PartialEq, Eq)]
pub struct Span {
    /// Inclusive, in nanoseconds.
    pub first: u64,
    /// Inclusive, in nanoseconds.
    pub last: u64,
    pub order: Order,
    pub most: u32,
}

impl Span {
    /// Whether a time, in nanoseconds, is in it.
    pub fn is_within(&self, time: u64) -> bool
        ensures { result ≡ is_within self.now time }
    {
        self.first <= time && time <= self.last
    }
}

/// The flag bits of a page: 0 newest first.
#[derive(Clone, Copy, Debug, PartialEq, Eq)]
pub struct PageFlags(pub u16);

impl PageFlags {
    /// Bit 0: the newest record comes first.
    pub fn is_newest_first(self) -> bool
        ensures { result ≡ has_bit self.0 0 }
    {
        self.0 % 2 == 1
    }
}

/// Which times a page is asked for, and how many records it shows.
#[derive(Clone, Copy, Debug, PartialEq, Eq)]
pub struct PageFilter {
    /// Inclusive, in nanoseconds; 0 is no bound.
    pub timestamp_min: u64,
    /// Inclusive, in nanoseconds; 0 is no bound.
    pub timestamp_max: u64,
    /// At most so many, 1 to 1,000.
    pub limit: u32,
    pub flags: PageFlags,
}

impl PageFilter {
    pub fn order(&self) -> Order
        ensures { result ≡ page_order self.now }
    {
        if self.flags.is_newest_first() {
            Order::Newest
        } else {
            Order::Oldest
        }
    }

    /// The span in which it looks.
    pub fn span(&self) -> Span
        ensures { result ≡ page_span self.now }
    {
        Span {
            first: self.timestamp_min,
            last: self.last_time(),
            order: self.order(),
            most: MOST_LOOKED_AT,
        }
    }

    fn last_time(&self) -> u64
        ensures { result ≡ last_time self.now.timestamp_max }
    {
        if self.timestamp_max == 0 {
            u64::MAX
        } else {
            self.timestamp_max
        }
    }
}

/// What a record can be asked for by.
#[derive(Clone, Copy, Debug, PartialEq, Eq)]
pub struct Tags {
    pub user_data_128: u128,
    pub user_data_64: u64,
    pub user_data_32: u32,
    pub ledger: u32,
    pub code: u16,
}

impl Tags {
    pub fn of_account(account: &Account) -> Tags
        ensures { result ≡ account_tags account.now }
    {
        Tags {
            user_data_128: account.user_data_128,
            user_data_64: account.user_data_64,
            user_data_32: account.user_data_32,
            ledger: account.ledger,
            code: account.code,
        }
    }

    pub fn of_transfer(transfer: &Transfer) -> Tags
        ensures { result ≡ transfer_tags transfer.now }
    {
        Tags {
            user_data_128: transfer.user_data_128,
            user_data_64: transfer.user_data_64,
            user_data_32: transfer.user_data_32,
            ledger: transfer.ledger,
            code: transfer.code,
        }
    }

    /// Whether these tags ask for a record with those; 0 asks for any value.
    pub fn asks(&self, other: &Tags) -> bool
        ensures { result ≡ asks_tags self.now other.now }
    {
        (self.user_data_128 == 0 || self.user_data_128 == other.user_data_128)
            && (self.user_data_64 == 0 || self.user_data_64 == other.user_data_64)
            && (self.user_data_32 == 0 || self.user_data_32 == other.user_data_32)
            && (self.ledger == 0 || self.ledger == other.ledger)
            && (self.code == 0 || self.code == other.code)
    }
}

/// Which accounts, or which transfers, are asked for.
#[derive(Clone, Copy, Debug, PartialEq, Eq)]
pub struct QueryFilter {
    /// 0 asks for any value.
    pub tags: Tags,
    pub page: PageFilter,
}
