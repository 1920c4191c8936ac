//! Which request a message asks, or whether it asks for the page or for health.
ghost use Rattle.std.specs.Prelude.{◌≡◌, ◌≤◌, ◌||◌, Err, IfOk};
ghost use Rattle.httparse.specs.Grammar.{RequestHead};
ghost use Rattle.ledger_http.specs.Limits.{max_body};
ghost use Rattle.ledger_http.specs.Message.{First, length_of_body};
ghost use Rattle.ledger_http.specs.Header.{ShowsHead};
ghost use Rattle.ledger_http.specs.Question.{question_by_route, told_by, question_in, TellsQuestion};
ghost use Rattle.ledger_http.specs.Question.{IsAsked};
ghost use Rattle.ledger_http.specs.Routes.{is_lint};

use crate::ends::head_length;
use crate::head::{Head, head_of};
use crate::limits::MAX_BODY;
use crate::routing::{account_in, find_route};
use crate::{Asked, Early, Refusal, Route};
use std::alloc::Global;
use tenants::Key;

/// How long the body behind a head is.
pub(crate) fn body_length(head: &Head<'_>) -> Result<usize, Refusal>
    ensures size { (h : RequestHead) → ShowsHead head.now h → result ≡ length_of_body h }
    ensures few { IfOk result (λ size. size ≤ max_body) }
{
    match head.length {
        Some(size) if size > MAX_BODY => Err(Refusal::BodyTooLarge),
        Some(size) => Ok(size),
        None if head.method == b"GET".as_slice() => Ok(0),
        None => Err(Refusal::LengthRequired),
    }
}

// Whether a refusal of the body says where: if that is asked for, and always where a body is judged
// alone.
fn says_where(is_asked: bool, route: Route) -> bool
    ensures { result ≡ (is_asked || is_lint route) }
{
    is_asked || route.is_lint()
}

// What a whole message asks by the routes.
fn question_by_route<'a>(
    alloc: Global,
    head: Head<'a>,
    body: &'a [u8],
) -> Result<Asked<'a>, Refusal>
    ensures { (first : First) → ShowsHead head.entry first.head → first.body ≡ body.now
        → TellsQuestion Refusal.Unavailable (question_by_route first) result }
{
    let route = find_route(alloc, head.target)?;
    if head.method != route.method() {
        return Err(Refusal::BadMethod);
    }
    let Some(key) = head.key.and_then(Key::read) else {
        return Err(Refusal::UnknownKey);
    };
    Ok(Asked {
        route,
        account: account_in(head.target),
        key,
        detail: says_where(head.wants_detail, route),
        body,
    })
}

// What is told at a path that asks no key.
fn told_by(told: Early, method: &[u8]) -> Early
    ensures { result ≡ told_by told method.now }
{
    if method == b"GET".as_slice() {
        told
    } else {
        Early::Refused(Refusal::BadMethod)
    }
}

// What a whole message asks.
fn question<'a>(alloc: Global, head: Head<'a>, body: &'a [u8]) -> Result<Asked<'a>, Early>
    ensures told { (first : First) → ShowsHead head.entry first.head → first.body ≡ body.now
        → TellsQuestion (Early.Refused Refusal.Unavailable) (question_in first) result }
    ensures page { (first : First) → ShowsHead head.entry first.head
        → question_in first ≡ Err Early.Page → result ≡ Err Early.Page }
    ensures health { (first : First) → ShowsHead head.entry first.head
        → question_in first ≡ Err Early.Health → result ≡ Err Early.Health }
{
    if head.target == "/" {
        return Err(told_by(Early::Page, head.method));
    }
    if head.target == "/health" {
        return Err(told_by(Early::Health, head.method));
    }
    match question_by_route(alloc, head, body) {
        Ok(asked) => Ok(asked),
        Err(refusal) => Err(Early::Refused(refusal)),
    }
}

/// Reads the first message of `bytes` up to its key, or tells what comes before any tenant is
/// looked up. What stands behind the message does not matter.
pub fn asked(alloc: Global, bytes: &[u8]) -> Result<Asked<'_>, Early>
    ensures { IsAsked bytes.now result }
{
    let head_size = head_length(bytes)?;
    let head = head_of(&bytes[..head_size])?;
    let body_size = body_length(&head)?;
    if bytes.len() - head_size < body_size {
        return Err(Early::Refused(Refusal::Truncated));
    }
    question(alloc, head, &bytes[head_size..head_size + body_size])
}
