ghost use Rattle.std.specs.Prelude.{◌≡◌};
ghost use Rattle.records.specs.Sides.{sums_on, with_sums};

use crate::Side;
use amount::Amount;

/// What the transfers of one side of an account come to.
#[derive(Clone, Copy, Debug, PartialEq, Eq)]
pub struct Sums {
    /// Of pending transfers that are open.
    pub pending: Amount,
    /// Of single-phase transfers and posts.
    pub posted: Amount,
}

/// The four sums of an account.
#[derive(Clone, Copy, Debug, PartialEq, Eq)]
pub struct Balances {
    pub debits: Sums,
    pub credits: Sums,
}

/// An account's balances after one of its entries.
#[derive(Clone, Copy, Debug, PartialEq, Eq)]
pub struct BalanceAt {
    /// The timestamp of the entry, in nanoseconds.
    pub timestamp: u64,
    pub balances: Balances,
}

impl Sums {
    /// The sums of no transfers.
    pub const ZERO: Sums = Sums {
        pending: Amount::ZERO,
        posted: Amount::ZERO,
    };
}

impl Balances {
    /// The balances of a new account.
    pub const ZERO: Balances = Balances {
        debits: Sums::ZERO,
        credits: Sums::ZERO,
    };

    /// The sums of one side.
    pub fn sums_on(&self, side: Side) -> Sums
        ensures { result ≡ sums_on side self.now }
    {
        match side {
            Side::Debit => self.debits,
            Side::Credit => self.credits,
        }
    }

    /// The balances with other sums on one side.
    pub fn with_sums(self, side: Side, sums: Sums) -> Balances
        ensures { result ≡ with_sums side self sums }
    {
        match side {
            Side::Debit => Balances {
                debits: sums,
                ..self
            },
            Side::Credit => Balances {
                credits: sums,
                ..self
            },
        }
    }
}
