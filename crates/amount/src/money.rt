ghost use Rattle.std.specs.Prelude.{◌≡◌, ℕ, ◌+◌, ◌-◌, ◌<◌, ◌≤◌, ◌^◌, min};
ghost use Rattle.std.specs.Option.{SomeIff};

use std::marker::Model;

/// An amount of money in the smallest unit of its ledger, from 0 to `Amount::MAX`.
#[derive(Clone, Copy, Debug, PartialEq, Eq, PartialOrd, Ord, Hash, Default)]
pub struct Amount(u128);

impl Model for Amount {
    ghost Value = { ℕ };

    ghost view = { λ a. a.0 };

    ghost inverse = { λ n. record { 0 = n } };
}

impl Amount {
    /// No money.
    pub const ZERO: Amount = Amount(0);

    /// The largest amount, 2^128 - 1.
    pub const MAX: Amount = Amount(u128::MAX);

    /// So much money in the smallest unit.
    pub const fn new(value: u128) -> Amount
        ensures { result ≡ value }
    {
        Amount(value)
    }

    /// The amount in the smallest unit. A proof that needs the range of an amount calls this.
    pub const fn value(self) -> u128
        ensures value { result ≡ self }
        ensures fits { self < 2 ^ 128 }
    {
        self.0
    }

    /// The sum, where it is an amount.
    pub fn checked_add(self, other: Amount) -> Option<Amount>
        ensures { SomeIff result (self + other < 2 ^ 128) (self + other) }
    {
        self.value().checked_add(other.value()).map(Amount::new)
    }

    /// What is left after `other` is taken away, where there is enough.
    pub fn checked_sub(self, other: Amount) -> Option<Amount>
        ensures { SomeIff result (other ≤ self) (self - other) }
    {
        self.value().checked_sub(other.value()).map(Amount::new)
    }

    /// The smaller of two amounts.
    pub fn least(self, other: Amount) -> Amount
        ensures { result ≡ min self other }
    {
        if other < self { other } else { self }
    }
}
