//! Moments, as the command line has them.
ghost use Rattle.std.specs.Prelude.{◌≡◌, ◌≢◌, ◌<◌, ◌^◌, ℕ, IfErr, IfOk};
ghost use Rattle.amount.specs.Decimal.{decimal_of};
ghost use Rattle.command_texts.specs.Dates.{ReadsMoment, first_of_day, last_of_day};

use crate::Fault;
use crate::date::Date;
use amount::Amount;

// Nanoseconds since 1970, in canonical decimal.
fn nanoseconds(text: &str) -> Result<u64, Fault>
    ensures ok { IfOk result (λ moment. text.now ≡ decimal_of moment) }
    ensures err { IfErr result (λ fault. (fault ≡ Fault.BadTime)
        × ((moment : ℕ) → moment < 2 ^ 64 → text.now ≢ decimal_of moment)) }
{
    let value = Amount::read_decimal(text).ok_or(Fault::BadTime)?.value();
    if value <= u128::from(u64::MAX) {
        Ok(value as u64)
    } else {
        Err(Fault::BadTime)
    }
}

/// The moment from which a word counts, in nanoseconds since 1970: the first nanosecond of a day of
/// UTC, `2026-11-24`, or nanoseconds in canonical decimal.
pub fn first_moment(text: &str) -> Result<u64, Fault>
    ensures { ReadsMoment first_of_day text.now result }
{
    match Date::of(text.as_bytes()) {
        Some(date) => Ok(date.first_nanosecond()),
        None => nanoseconds(text),
    }
}

/// The moment up to which a word counts: the last nanosecond of a day, or nanoseconds.
pub fn last_moment(text: &str) -> Result<u64, Fault>
    ensures { ReadsMoment last_of_day text.now result }
{
    match Date::of(text.as_bytes()) {
        Some(date) => Ok(date.last_nanosecond()),
        None => nanoseconds(text),
    }
}
