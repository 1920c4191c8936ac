//! What a reply tells.
ghost use Rattle.std.specs.Prelude.{◌≡◌, IfSome, IfOk, IfErr};
ghost use Rattle.serde_json.specs.View.{view};
ghost use Rattle.control.specs.Told.{HasReply, IsFaultIn, IsToldIn, fault_in};

use crate::reading::value_in;
use command_texts::Fault;
use httparse::Status;
use httparse::spans::{EMPTY_HEADER_SPAN, parse_response};
use serde_json::Value;
use std::alloc::Global;

/// So many headers a reply may have.
const MOST_HEADERS: usize = 64;

/// The parts of a reply that are looked at.
#[derive(Clone, Copy)]
struct Reply<'a> {
    status: u16,
    body: &'a [u8],
}

// The parts of a whole reply, whose body ends where the bytes do.
fn reply_in(bytes: &[u8]) -> Option<Reply<'_>>
    ensures { IfSome result (λ reply. HasReply bytes.now reply.status reply.body.now) }
{
    let mut room = [EMPTY_HEADER_SPAN; MOST_HEADERS];
    match parse_response(bytes, &mut room) {
        Ok(Status::Complete(spans)) => Some(Reply {
            status: spans.code,
            body: &bytes[spans.len..],
        }),
        _ => None,
    }
}

// The fault that a refusal's body tells.
fn fault_in(value: &Value) -> Fault
    ensures { result ≡ fault_in (view value.now) }
{
    let word = value.get("error").and_then(Value::as_str);
    word.and_then(Fault::of_word).unwrap_or(Fault::Unavailable)
}

/// The body that a reply tells, or the fault. A reply that is cut short is none, as it has no JSON.
pub fn told(alloc: Global, bytes: &[u8]) -> Result<Vec<u8>, Fault>
    ensures told { IfOk result (λ body. IsToldIn bytes.now body.items) }
    ensures fault { IfErr result (IsFaultIn bytes.now) }
{
    let reply = reply_in(bytes).ok_or(Fault::Unavailable)?;
    let value = value_in(alloc, reply.body)?.ok_or(Fault::Unavailable)?;
    if reply.status != 200 {
        return Err(fault_in(&value));
    }
    let mut body = Vec::new(alloc);
    body.extend_from_slice(reply.body)?;
    Ok(body)
}
