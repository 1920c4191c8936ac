//! The bytes of a reply.
ghost use Rattle.std.specs.Prelude.{◌≡◌, IfOk};
ghost use Rattle.std.specs.String.{string_bytes};
ghost use Rattle.control.specs.Refusals.{status_of};
ghost use Rattle.control.specs.Replies.{head_text, refusal_body, reply_text};

use crate::refusal::Refusal;
use http::StatusCode;
use std::alloc::{AllocError, Global};
use wire::refusal_text;

// All of a reply that stands before its body.
fn head(alloc: Global, status: StatusCode, length: usize) -> Result<String, AllocError>
    ensures { IfOk result (λ head. string_bytes head ≡ head_text status length) }
{
    format!(in alloc;
        "HTTP/1.1 {status}\r\ncontent-length: {length}\r\ncontent-type: application/json\r\nconnection: close\r\n\r\n"
    )
}

// A reply with a status and a body.
fn reply(alloc: Global, status: StatusCode, body: &[u8]) -> Result<Vec<u8>, AllocError>
    ensures { IfOk result (λ reply. reply.items ≡ reply_text status body.now) }
{
    let mut bytes = head(alloc, status, body.len())?.into_bytes();
    bytes.extend_from_slice(body)?;
    Ok(bytes)
}

/// The reply that tells a body.
pub(crate) fn told_reply(alloc: Global, body: &[u8]) -> Result<Vec<u8>, AllocError>
    ensures { IfOk result (λ reply. reply.items ≡ reply_text 200 body.now) }
{
    reply(alloc, StatusCode::OK, body)
}

/// The reply that tells why a call is refused.
pub(crate) fn refusal_reply(alloc: Global, refusal: Refusal) -> Result<Vec<u8>, AllocError>
    ensures { IfOk result (λ reply.
        reply.items ≡ reply_text (status_of refusal) (refusal_body refusal)) }
{
    let body = refusal_text(alloc, refusal.word())?;
    reply(alloc, refusal.status(), body.as_slice())
}
