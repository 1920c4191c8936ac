//! A number's decimal text, on the stack.
ghost use Rattle.std.specs.Prelude.{◌≡◌};
ghost use Rattle.amount.specs.Decimal.{decimal_of};

use amount::{Amount, MAX_DIGITS};
use std::marker::Model;

/// The digits of a number, without a zero in front of others.
#[derive(Drop)]
pub struct Decimal {
    digits: [u8; MAX_DIGITS],
    len: usize,
}

impl Model for Decimal {
    ghost use Rattle.std.specs.Prelude.{ℕ, List, ◌≤◌, take};

    ghost Value = { List ℕ };

    ghost view = { λ d. take d.len d.digits };

    ghost invariant = { λ d. d.len ≤ 39 };
}

impl Decimal {
    pub fn new(number: u128) -> Decimal
        ensures { result ≡ decimal_of number }
    {
        let mut digits = [0; MAX_DIGITS];
        let len = Amount::new(number).write_decimal(&mut digits);
        Decimal { digits, len }
    }

    pub fn as_bytes(&self) -> &[u8]
        ensures { result.now ≡ self.now }
    {
        &self.digits[..self.len]
    }
}
