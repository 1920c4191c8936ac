//! What a body tells of a copy.
ghost use Rattle.std.specs.Prelude.{◌≡◌, ℕ, Some, decimal, IfOk, MatchResult};
ghost use Rattle.std.specs.String.{string_bytes};
ghost use Rattle.serde_json.specs.Written.{compact_text};
ghost use Rattle.control.specs.Bodies.{copied_data};
ghost use Rattle.control.specs.Copying.{copied_text};

use crate::body::named_body;
use crate::members::text;
use crate::reading::value_in;
use command_texts::Fault;
use std::alloc::{AllocError, Global};

/// Tells that a copy is made, and how many bytes it has.
pub fn copied_body(alloc: Global, bytes: u64) -> Result<Vec<u8>, AllocError>
    ensures { IfOk result (λ body. body.items ≡ compact_text (copied_data bytes)) }
{
    let digits = format!(in alloc; "{bytes}")?;
    named_body(alloc, "copied", digits.as_str())
}

// The digits of a number, if a text is nothing else.
fn digits_in(alloc: Global, text: &str) -> Result<String, Fault>
    ensures same { IfOk result (λ digits. string_bytes digits ≡ text.now) }
    ensures number { MatchResult result
        (λ digits. (number : ℕ) × (string_bytes digits ≡ decimal number))
        (λ fault. fault ≡ Fault.Unavailable) }
{
    let Ok(number) = text.parse::<u64>() else {
        return Err(Fault::Unavailable);
    };
    let digits = format!(in alloc; "{number}")?;
    if digits.as_str() == text {
        Ok(digits)
    } else {
        Err(Fault::Unavailable)
    }
}

/// How many bytes a copy has, in decimal, by the body that tells of it.
pub fn copied_in(alloc: Global, body: &[u8]) -> Result<String, Fault>
    ensures told { IfOk result (λ digits. copied_text body.now ≡ Some (string_bytes digits)) }
    ensures number { MatchResult result
        (λ digits. (bytes : ℕ) × (string_bytes digits ≡ decimal bytes))
        (λ fault. fault ≡ Fault.Unavailable) }
{
    let value = value_in(alloc, body)?.ok_or(Fault::Unavailable)?;
    let text = text(&value, "copied").ok_or(Fault::Unavailable)?;
    digits_in(alloc, text)
}
