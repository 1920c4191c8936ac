//! One cell of a file, and the value that it holds.

ghost use Rattle.std.specs.Prelude.{◌≡◌, ℕ, ◌<◌, ◌^◌, pos, Some, IfSome};
ghost use Rattle.amount.specs.Column.{column_of};
ghost use Rattle.rows.specs.Cells.{short_column_of};

use amount::Amount;

/// The blob of 16 bytes that holds the number.
pub(crate) fn wide_column(number: u128) -> [u8; 16]
    ensures { result ≡ column_of number }
{
    Amount::new(number).to_column()
}

/// The blob of 8 bytes that holds the number.
#[tactic(auto, unfolding(crate::specs::Cells::short_column_of))]
pub(crate) fn short_column(number: u64) -> [u8; 8]
    ensures { result ≡ short_column_of number }
{
    number.to_be_bytes()
}

/// The number in a blob of 16 bytes.
pub(crate) fn wide(column: [u8; 16]) -> u128
    ensures column { column ≡ column_of result }
    ensures fits { result < 2 ^ 128 }
    ensures undoes { (n : ℕ) → n < 2 ^ 128 → column ≡ column_of n → result ≡ n }
{
    Amount::from_column(&column).unwrap().value()
}

/// The number in a blob of 8 bytes.
#[tactic(auto, unfolding(crate::specs::Cells::short_column_of))]
pub(crate) fn short(column: [u8; 8]) -> u64
    ensures column { column ≡ short_column_of result }
    ensures fits { result < 2 ^ 64 }
    ensures undoes { (n : ℕ) → n < 2 ^ 64 → column ≡ short_column_of n → result ≡ n }
{
    u64::from_be_bytes(column)
}

/// The cell's number, where it is none of more than 63 bits and not negative.
pub(crate) fn unsigned(cell: i64) -> Option<u64>
    ensures cell { IfSome result (λ n. cell ≡ pos n) }
    ensures fits { IfSome result (λ n. n < 2 ^ 63) }
    ensures undoes { (n : ℕ) → cell ≡ pos n → result ≡ Some n }
{
    u64::try_from(cell).ok()
}

/// The cell's number, where it is one of 32 bits.
pub(crate) fn small(cell: i64) -> Option<u32>
    ensures cell { IfSome result (λ n. cell ≡ pos n) }
    ensures fits { IfSome result (λ n. n < 2 ^ 32) }
    ensures undoes { (n : ℕ) → n < 2 ^ 32 → cell ≡ pos n → result ≡ Some n }
{
    u32::try_from(cell).ok()
}

/// The cell's number, where it is one of 16 bits.
pub(crate) fn tiny(cell: i64) -> Option<u16>
    ensures cell { IfSome result (λ n. cell ≡ pos n) }
    ensures fits { IfSome result (λ n. n < 2 ^ 16) }
    ensures undoes { (n : ℕ) → n < 2 ^ 16 → cell ≡ pos n → result ≡ Some n }
{
    u16::try_from(cell).ok()
}
