//! The parts of a message.
ghost use Rattle.std.specs.Prelude.{IfSome, IfNone};
ghost use Rattle.control.specs.Parts.{HasNoParts, HasParts};

use httparse::Status;
use httparse::spans::{EMPTY_HEADER_SPAN, parse_request};

/// So many headers a message may have.
const MOST_HEADERS: usize = 64;

/// The parts of a message that are looked at.
#[derive(Clone, Copy)]
pub(crate) struct Parts<'a> {
    pub(crate) method: &'a [u8],
    pub(crate) path: &'a str,
    pub(crate) body: &'a [u8],
}

/// The parts of a whole message, whose body ends where the bytes do.
pub(crate) fn parts_in(bytes: &[u8]) -> Option<Parts<'_>>
    ensures parts { IfSome result (λ parts.
        HasParts bytes.now parts.method.now parts.path.now parts.body.now) }
    ensures none { IfNone result (HasNoParts bytes.now) }
{
    let mut room = [EMPTY_HEADER_SPAN; MOST_HEADERS];
    match parse_request(bytes, &mut room) {
        Ok(Status::Complete(spans)) => Some(Parts {
            method: spans.method.of(bytes),
            path: str::from_utf8(spans.path.of(bytes)).unwrap(),
            body: &bytes[spans.len..],
        }),
        _ => None,
    }
}
