//! The clock in a reply.

ghost use Rattle.std.specs.Prelude.{◌≡◌, ◌<◌, ◌^◌, ◌++◌, ◌∷◌, ◌↔◌, ℕ, List, MatchOption, IsTrue, max};
ghost use Rattle.amount.specs.Decimal.{decimal_of};
ghost use Rattle.reply_marks.specs.Replies.{Lacks, IsSplit, TellsClock};

use amount::Amount;
use memchr::memchr;

/// The clock that a reply to a batch tells. A reply that refuses the batch has none.
pub fn clock_in(reply: &[u8]) -> Option<u64>
    ensures { MatchOption result ((clock : ℕ) → TellsClock reply.now clock → ⊥)
        (TellsClock reply.now) }
{
    let (_head, body) = parted(b'{', reply)?;
    let text = behind(body, b"\"clock\":\"")?;
    let (digits, _rest) = parted(b'"', text)?;
    number(digits)
}

/// The later one of this clock and of the one that a reply tells, if it tells one.
pub fn latest_told(clock: u64, reply: &[u8]) -> u64
    ensures told { (other : ℕ) → TellsClock reply.now other → result ≡ max clock other }
    ensures untold { ((other : ℕ) → TellsClock reply.now other → ⊥) → result ≡ clock }
{
    match clock_in(reply) {
        Some(other) => clock.max(other),
        None => clock,
    }
}

// What stands before the first such byte, and behind it.
fn parted(byte: u8, bytes: &[u8]) -> Option<(&[u8], &[u8])>
    ensures { MatchOption result (Lacks byte bytes.now)
        (λ parts. IsSplit byte bytes.now parts.0.now parts.1.now) }
{
    let at = memchr(byte, bytes)?;
    Some((&bytes[..at], &bytes[at + 1..]))
}

// What stands behind this beginning of bytes.
fn behind<'a>(bytes: &'a [u8], first: &[u8]) -> Option<&'a [u8]>
    ensures { MatchOption result ((rest : List ℕ) → bytes.now ≡ first.now ++ rest → ⊥)
        (λ rest. bytes.now ≡ first.now ++ rest.now) }
{
    let (front, rest) = bytes.split_at_checked(first.len())?;
    if are_same(front, first) {
        Some(rest)
    } else {
        None
    }
}

fn are_same(one: &[u8], other: &[u8]) -> bool
    ensures { IsTrue result ↔ (one.now ≡ other.now) }
{
    one == other
}

// The number that is written so.
fn number(digits: &[u8]) -> Option<u64>
    ensures { MatchOption result ((n : ℕ) → n < 2 ^ 64 → digits.now ≡ decimal_of n → ⊥)
        (λ n. (n < 2 ^ 64) × (digits.now ≡ decimal_of n)) }
{
    let Ok(text) = str::from_utf8(digits) else {
        return None;
    };
    let amount = Amount::read_decimal(text)?;
    u64::try_from(amount.value()).ok()
}
