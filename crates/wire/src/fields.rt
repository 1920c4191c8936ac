//! The numbers in the fields of an object.

ghost use Rattle.std.specs.Prelude.{◌≡◌, ℕ, ◌+◌, ◌<◌, ◌^◌, ◌↔◌, List, Some, IfErr, codes};
ghost use Rattle.std.specs.Result.{result_ok};
ghost use Rattle.amount.specs.Decimal.{decimal_of};
ghost use Rattle.serde_json.specs.Find.{get};
ghost use Rattle.wire.specs.Fields.{number_below, wide, whole};
ghost use Rattle.wire.specs.KnownObjects.{limit_of};
ghost use Rattle.wire.specs.Misfits.{IsBadField};
ghost use Rattle.wire.specs.Trees.{tree_data};

use crate::Wanted;
use crate::misfit::Misfit;
use crate::tree::{member, text, whole};
use amount::Amount;
use json::Value;
use records::MOST_AT_ONCE;

/// A field of 128 bits: a string of canonical decimal, 0 where it is missing.
pub(crate) fn wide_128(object: &Value<'_>, name: &str) -> Option<u128>
    ensures { result ≡ wide (2 ^ 128) (get name.now (tree_data object.now)) }
{
    match member(object, name) {
        None => Some(0),
        Some(field) => read_number(text(field)?),
    }
}

/// A field of 64 bits: a string of canonical decimal, 0 where it is missing.
pub(crate) fn wide_64(object: &Value<'_>, name: &str) -> Option<u64>
    ensures { result ≡ wide (2 ^ 64) (get name.now (tree_data object.now)) }
{
    match member(object, name) {
        None => Some(0),
        Some(field) => u64::try_from(read_number(text(field)?)?).ok(),
    }
}

/// A field of 32 bits: a whole number, 0 where it is missing.
pub(crate) fn whole_32(object: &Value<'_>, name: &str) -> Option<u32>
    ensures { result ≡ whole (2 ^ 32) (get name.now (tree_data object.now)) }
{
    match member(object, name) {
        None => Some(0),
        Some(field) => u32::try_from(whole(field)?).ok(),
    }
}

/// A field of 16 bits: a whole number, 0 where it is missing.
pub(crate) fn whole_16(object: &Value<'_>, name: &str) -> Option<u16>
    ensures { result ≡ whole (2 ^ 16) (get name.now (tree_data object.now)) }
{
    match member(object, name) {
        None => Some(0),
        Some(field) => u16::try_from(whole(field)?).ok(),
    }
}

/// The same field, or why it is none.
pub(crate) fn u128_field<'a>(object: &Value<'_>, name: &'a str) -> Result<u128, Misfit<'a>>
    ensures value { result_ok result ≡ wide (2 ^ 128) (get name.now (tree_data object.now)) }
    ensures misfit { IfErr result (IsBadField name.now Wanted.Digits128 (tree_data object.now)) }
{
    wide_128(object, name).ok_or(Misfit::of_field(name, Wanted::Digits128))
}

/// The same of 64 bits.
pub(crate) fn u64_field<'a>(object: &Value<'_>, name: &'a str) -> Result<u64, Misfit<'a>>
    ensures value { result_ok result ≡ wide (2 ^ 64) (get name.now (tree_data object.now)) }
    ensures misfit { IfErr result (IsBadField name.now Wanted.Digits64 (tree_data object.now)) }
{
    wide_64(object, name).ok_or(Misfit::of_field(name, Wanted::Digits64))
}

/// The same of 32 bits.
pub(crate) fn u32_field<'a>(object: &Value<'_>, name: &'a str) -> Result<u32, Misfit<'a>>
    ensures value { result_ok result ≡ whole (2 ^ 32) (get name.now (tree_data object.now)) }
    ensures misfit { IfErr result
        (IsBadField name.now (Wanted.WholeBelow (2 ^ 32)) (tree_data object.now)) }
{
    whole_32(object, name).ok_or(Misfit::of_field(name, Wanted::WholeBelow(1 << 32)))
}

/// The same of 16 bits.
pub(crate) fn u16_field<'a>(object: &Value<'_>, name: &'a str) -> Result<u16, Misfit<'a>>
    ensures value { result_ok result ≡ whole (2 ^ 16) (get name.now (tree_data object.now)) }
    ensures misfit { IfErr result
        (IsBadField name.now (Wanted.WholeBelow (2 ^ 16)) (tree_data object.now)) }
{
    whole_16(object, name).ok_or(Misfit::of_field(name, Wanted::WholeBelow(1 << 16)))
}

/// The flags of an object that are among those known.
pub(crate) fn flags_field(object: &Value<'_>, known: u16) -> Result<u16, Misfit<'static>>
    ensures value { result_ok result ≡ whole (known + 1) (get (codes "flags") (tree_data object.now)) }
    ensures misfit { IfErr result
        (IsBadField (codes "flags") (Wanted.WholeBelow (known + 1)) (tree_data object.now)) }
{
    let wanted = Wanted::WholeBelow(u64::from(known) + 1);
    flags_in(object, known).ok_or(Misfit::of_field("flags", wanted))
}

fn flags_in(object: &Value<'_>, known: u16) -> Option<u16>
    ensures { result ≡ whole (known + 1) (get (codes "flags") (tree_data object.now)) }
{
    let flags = whole_16(object, "flags")?;
    if flags <= known { Some(flags) } else { None }
}

/// How many entries are asked for: 1 to 1,000.
pub(crate) fn limit_field(object: &Value<'_>) -> Result<u32, Misfit<'static>>
    ensures value { result_ok result ≡ limit_of (get (codes "limit") (tree_data object.now)) }
    ensures misfit { IfErr result
        (IsBadField (codes "limit") Wanted.Limit (tree_data object.now)) }
{
    limit_in(object).ok_or(Misfit::of_field("limit", Wanted::Limit))
}

fn limit_in(object: &Value<'_>) -> Option<u32>
    ensures { result ≡ limit_of (get (codes "limit") (tree_data object.now)) }
{
    let limit = whole_32(object, "limit")?;
    if (1..=MOST_AT_ONCE).contains(&limit) {
        Some(limit)
    } else {
        None
    }
}

/// The number below 2^128 whose decimal a text is, digit for digit.
pub fn read_number(text: &str) -> Option<u128>
    ensures { result ≡ number_below (2 ^ 128) text.now }
{
    Some(Amount::read_decimal(text)?.value())
}

/// A text means a number exactly where it is the number's decimal, digit for digit.
pub fn numbers_are_canonical()
    ensures { (bound n : ℕ) (text : List ℕ) → n < bound → n < 2 ^ 128
        → (number_below bound text ≡ Some n) ↔ (text ≡ decimal_of n) }
{}
