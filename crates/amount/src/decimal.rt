ghost use Rattle.std.specs.Prelude.{◌≡◌, ◌≢◌, ℕ, ◌<◌, ◌≤◌, ◌^◌, ◌↔◌, take, IfSome, IfNone, IsTrue};
ghost use Rattle.amount.specs.Decimal.{decimal_of, HasIdleFront};

use crate::money::Amount;

/// How many digits the largest amount has.
pub const MAX_DIGITS: usize = 39;

impl Amount {
    /// Reads the one text in which an amount is written: digits alone, with no sign, no space, and
    /// no zero in front of another digit. A number above `Amount::MAX` is none.
    pub fn read_decimal(text: &str) -> Option<Amount>
        ensures text { IfSome result (λ a. text.now ≡ decimal_of a) }
        ensures fits { IfSome result (λ a. a < 2 ^ 128) }
        ensures undoes { (a : ℕ) → a < 2 ^ 128 → text.now ≡ decimal_of a → result ≡ Some a }
        ensures none { IfNone result ((a : ℕ) → a < 2 ^ 128 → text.now ≢ decimal_of a) }
    {
        if has_idle_front(text.as_bytes()) {
            return None;
        }
        text.parse::<u128>().ok().map(Amount::new)
    }

    /// Writes the amount's digits to the front of `digits`, and says how many they are. What stands
    /// after them is of no meaning.
    pub fn write_decimal(self, digits: &mut [u8; MAX_DIGITS]) -> usize
        ensures fits { result ≤ MAX_DIGITS }
        ensures text { take result digits.new ≡ decimal_of self }
    {
        let mut rest = self.value();
        let mut start = MAX_DIGITS - 1;
        while rest >= 10 {
            digits[start] = b'0' + (rest % 10) as u8;
            rest /= 10;
            start -= 1;
        }
        digits[start] = b'0' + rest as u8;
        digits.copy_within(start.., 0);
        MAX_DIGITS - start
    }
}

// `parse` would take such a text too.
fn has_idle_front(text: &[u8]) -> bool
    ensures { IsTrue result ↔ HasIdleFront text.now }
{
    matches!(text, [b'+', ..] | [b'0', _, ..])
}
