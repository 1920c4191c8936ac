ghost use Rattle.std.specs.Prelude.{◌≡◌, IfOk};
ghost use Rattle.std.specs.String.{string_bytes};
ghost use Rattle.ledger_http.specs.ReplyText.{head_text, body_text, reply_text, early_reply};
ghost use Rattle.ledger_http.specs.ReplyText.{health_reply, response_text};
ghost use Rattle.ledger_http.specs.RefusalTable.{status_of};
ghost use Rattle.ledger_http.specs.declared.content_type.ContentType.TheVariants.{Json};
ghost use Rattle.ledger_http.specs.Chunks.{chunked_head, chunked_text};

use crate::{ContentType, Early, Refusal, Text};
use console::page_reply;
use http::StatusCode;
use std::alloc::{AllocError, Global};

/// A reply, from its status line on.
#[derive(Debug, Drop)]
pub enum Reply {
    Whole(Text),
    /// The constant reply of a refusal.
    Fixed(Refusal),
    /// The constant reply that has the console's page.
    Page,
    /// The constant reply that the ledgers serve.
    Health,
}

// All of a reply that stands before its body.
fn head(
    alloc: Global,
    status: StatusCode,
    kind: ContentType,
    length: usize,
) -> Result<String, AllocError>
    ensures { IfOk result (λ head. string_bytes head ≡ head_text status kind length) }
{
    let kind = kind.name();
    format!(in alloc;
        "HTTP/1.1 {status}\r\ncontent-length: {length}\r\ncontent-type: {kind}\r\n\r\n"
    )
}

// A reply with this status.
fn with_status(
    alloc: Global,
    status: StatusCode,
    kind: ContentType,
    body: &[u8],
) -> Result<Reply, AllocError>
    ensures { IfOk result (λ reply. reply_text reply ≡ response_text status kind body.now) }
{
    let mut bytes = head(alloc, status, kind, body.len())?.into_bytes();
    bytes.extend_from_slice(body)?;
    Ok(Reply::Whole(bytes.into()))
}

// All of a reply without refusal that stands before a body in chunks.
fn chunked_head(alloc: Global, kind: ContentType) -> Result<String, AllocError>
    ensures { IfOk result (λ head. string_bytes head ≡ chunked_head kind) }
{
    let status = StatusCode::OK;
    let kind = kind.name();
    format!(in alloc;
        "HTTP/1.1 {status}\r\ncontent-type: {kind}\r\ntransfer-encoding: chunked\r\n\r\n"
    )
}

// The reply that the ledgers serve.
#[tactic(auto, unfolding(crate::specs::ReplyText::health_reply, crate::proofs::Literals::reply_on_literals))]
fn health_reply() -> &'static str
    ensures { result.now ≡ health_reply }
{
    concat!(
        "HTTP/1.1 200 OK\r\ncontent-length: 16\r\ncontent-type: application/json\r\n\r\n",
        "{\"serving\":true}"
    )
}

impl Reply {
    /// A reply without refusal.
    #[tactic(auto, unfolding(crate::specs::ReplyText::body_text))]
    pub fn of_body(alloc: Global, kind: ContentType, body: &[u8]) -> Result<Reply, AllocError>
        ensures { IfOk result (λ reply. reply_text reply ≡ body_text kind body.now) }
    {
        with_status(alloc, StatusCode::OK, kind, body)
    }

    /// A reply that refuses, whose body says more than the refusal's constant reply.
    pub fn of_refusal(alloc: Global, refusal: Refusal, body: &[u8]) -> Result<Reply, AllocError>
        ensures { IfOk result (λ reply.
            reply_text reply ≡ response_text (status_of refusal) Json body.now) }
    {
        with_status(alloc, refusal.status(), ContentType::Json, body)
    }

    /// A reply without refusal whose body comes in chunks.
    #[tactic(auto, unfolding(crate::specs::Chunks::chunked_text))]
    pub fn of_chunks(alloc: Global, kind: ContentType, chunks: &[u8]) -> Result<Reply, AllocError>
        ensures { IfOk result (λ reply. reply_text reply ≡ chunked_text kind chunks.now) }
    {
        let mut bytes = chunked_head(alloc, kind)?.into_bytes();
        bytes.extend_from_slice(chunks)?;
        Ok(Reply::Whole(bytes.into()))
    }

    #[tactic(auto, unfolding(crate::specs::ReplyText::page_reply))]
    pub fn bytes(&self) -> &[u8]
        ensures { result.now ≡ reply_text self.now }
    {
        match self {
            Reply::Whole(text) => text.as_slice(),
            Reply::Fixed(refusal) => refusal.reply().as_bytes(),
            Reply::Page => page_reply().as_bytes(),
            Reply::Health => health_reply().as_bytes(),
        }
    }
}

impl From<Early> for Reply {
    ghost from_gives = { λ early reply. reply ≡ early_reply early };

    fn from(early: Early) -> Reply {
        match early {
            Early::Page => Reply::Page,
            Early::Health => Reply::Health,
            Early::Refused(refusal) => Reply::Fixed(refusal),
        }
    }
}
