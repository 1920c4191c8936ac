//! Where the head of a message ends.
ghost use Rattle.std.specs.Prelude.{◌≡◌, ◌≤◌, ◌<◌, length, nat_eq, Err, IfOk, IfSome, IfNone};
ghost use Rattle.std.specs.List.{ends_with};
ghost use Rattle.ledger_http.specs.declared.refusal.Refusal.TheVariants.{Truncated};
ghost use Rattle.ledger_http.specs.Message.{blank_line, end_of_head, length_of_head};
ghost use Rattle.ledger_http.specs.Progress.{HasNoEnd, IsOpen};

use crate::Refusal;
use crate::limits::MAX_HEAD;

/// Whether the bytes end with a blank line.
pub(crate) fn ends_head(bytes: &[u8]) -> bool
    ensures { result ≡ ends_with nat_eq bytes.now blank_line }
{
    bytes.ends_with(b"\r\n\r\n")
}

// How long the head is that ends within the bytes, where none ends within the first `looked`.
fn head_end(bytes: &[u8], looked: usize) -> Option<usize>
    requires within { looked ≤ length bytes.now }
    requires none { HasNoEnd bytes.now looked }
    ensures end { result ≡ end_of_head bytes.now }
    ensures within { IfSome result (λ size. size ≤ length bytes.now) }
    ensures none { IfNone result (HasNoEnd bytes.now (length bytes.now)) }
{
    for end in looked..bytes.len() {
        if ends_head(&bytes[..end + 1]) {
            return Some(end + 1);
        }
    }
    None
}

/// How long the head is that the bytes begin with, where none ends within the first `looked`.
pub(crate) fn head_length_from(bytes: &[u8], looked: usize) -> Result<usize, Refusal>
    requires { IsOpen bytes.now looked }
    ensures size { result ≡ length_of_head bytes.now }
    ensures within { IfOk result (λ size. size ≤ length bytes.now) }
    ensures open { result ≡ Err Truncated → IsOpen bytes.now (length bytes.now) }
{
    match head_end(&bytes[..MAX_HEAD.min(bytes.len())], looked) {
        Some(size) => Ok(size),
        None if bytes.len() < MAX_HEAD => Err(Refusal::Truncated),
        None => Err(Refusal::HeadTooLarge),
    }
}

/// How long the head is that the bytes begin with.
pub(crate) fn head_length(bytes: &[u8]) -> Result<usize, Refusal>
    ensures size { result ≡ length_of_head bytes.now }
    ensures within { IfOk result (λ size. size ≤ length bytes.now) }
{
    head_length_from(bytes, 0)
}
