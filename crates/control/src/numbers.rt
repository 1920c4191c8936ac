//! Numbers in the members of an object, each a text in canonical decimal.
ghost use Rattle.std.specs.Prelude.{◌≡◌, ◌^◌};
ghost use Rattle.serde_json.specs.View.{view};
ghost use Rattle.control.specs.Numbers.{number_at};

use crate::members::text;
use serde_json::Value;
use wire::read_number;

/// The number of a member.
pub(crate) fn number_at(value: &Value, name: &str) -> Option<u128>
    ensures { result ≡ number_at (2 ^ 128) name.now (view value.now) }
{
    read_number(text(value, name)?)
}

/// The same of 64 bits.
pub(crate) fn number_64_at(value: &Value, name: &str) -> Option<u64>
    ensures { result ≡ number_at (2 ^ 64) name.now (view value.now) }
{
    u64::try_from(number_at(value, name)?).ok()
}

/// The same of 32 bits.
pub(crate) fn number_32_at(value: &Value, name: &str) -> Option<u32>
    ensures { result ≡ number_at (2 ^ 32) name.now (view value.now) }
{
    u32::try_from(number_at(value, name)?).ok()
}

/// The same of 16 bits.
pub(crate) fn number_16_at(value: &Value, name: &str) -> Option<u16>
    ensures { result ≡ number_at (2 ^ 16) name.now (view value.now) }
{
    u16::try_from(number_at(value, name)?).ok()
}
