//! Replies that refuse a body and say where.
ghost use Rattle.std.specs.Prelude.{◌≡◌, ◌≢◌, ◌∷◌, [], false, IfOk, IfSome, IfNone, codes};
ghost use Rattle.serde_json.specs.Data as json;
ghost use Rattle.serde_json.specs.Written.{compact_text};
ghost use Rattle.ledger_http.specs.declared.refusal.Refusal.TheVariants.{Unavailable};
ghost use Rattle.ledger_http.specs.declared.reply.Reply.TheVariants.{Fixed};
ghost use Rattle.ledger_http.specs.declared.refusal.Refusal.{Refusal as ARefusal};
ghost use Rattle.ledger_http.specs.Question.{Question, question_of};
ghost use Rattle.ledger_http.specs.RefusalTable.{name_of};
ghost use Rattle.ledger_http.specs.ReplyText.{reply_text};
ghost use Rattle.wire.specs.Reply.{fault_data, field_members};
ghost use Rattle.wire.specs.declared.outcome.Outcome.TheVariants.{Refused};
ghost use Rattle.wire.specs.Asked.{refused_as};
ghost use Rattle.wire.specs.Told.{detailed_text, outcome_text};

use crate::BodyFault;
use crate::faults::fault_in;
use crate::members::{Member, object_text};
use ledger_http::{Asked, Refusal, Reply};
use std::alloc::{AllocError, Global};

/// A name of a field that has more bytes is left out.
const MAX_NAME: usize = 64;

// The name of the field, if it is short.
fn short_name(fault: &BodyFault) -> Option<&str>
    ensures some { IfSome result (λ name.
        field_members fault.now.field ≡ (codes "field", json.string name.now) ∷ []) }
    ensures none { IfNone result (field_members fault.now.field ≡ []) }
{
    let name = fault.field.as_ref()?.as_str();
    if name.len() <= MAX_NAME {
        Some(name)
    } else {
        None
    }
}

// The body of the reply, as compact JSON.
fn fault_text(alloc: Global, refusal: Refusal, fault: &BodyFault) -> Result<Vec<u8>, AllocError>
    ensures { IfOk result (λ text.
        text.items ≡ compact_text (fault_data (name_of refusal) fault.now)) }
{
    let want = fault.wanted.text(alloc)?;
    let error = Member::text("error", refusal.name());
    let want = Member::text("want", want.as_str());
    match (fault.event, short_name(fault)) {
        (Some(event), Some(name)) => {
            let event = Member::number("event", event as u64);
            object_text(alloc, &[error, event, Member::text("field", name), want])
        }
        (Some(event), None) => {
            object_text(alloc, &[error, Member::number("event", event as u64), want])
        }
        (None, Some(name)) => object_text(alloc, &[error, Member::text("field", name), want]),
        (None, None) => object_text(alloc, &[error, want]),
    }
}

/// The reply that refuses a body and says where.
#[tactic(auto, unfolding(crate::specs::Told::detailed_text))]
pub(crate) fn detailed_reply(
    alloc: Global,
    refusal: Refusal,
    fault: &BodyFault,
) -> Result<Reply, AllocError>
    ensures { IfOk result (λ reply. reply_text reply ≡ detailed_text refusal fault.now) }
{
    let body = fault_text(alloc, refusal, fault)?;
    Reply::of_refusal(alloc, refusal, &body)
}

/// The reply to a request that is refused. Where the request asks for detail, and its body is at
/// fault, the reply says where; for want of memory it is then `Unavailable`.
pub fn refused_reply(alloc: Global, asked: &Asked, refusal: Refusal) -> Reply
    ensures text { result ≢ Fixed Unavailable
        → reply_text result ≡ outcome_text (refused_as (question_of asked.now) refusal) }
    ensures unavailable { refusal ≡ Unavailable → result ≡ Fixed Unavailable }
{
    if !asked.detail || refusal == Refusal::Unavailable {
        return Reply::Fixed(refusal);
    }
    match fault_in(alloc, asked.route, asked.body) {
        Ok(None) => Reply::Fixed(refusal),
        Ok(Some(fault)) => {
            detailed_reply(alloc, refusal, &fault).unwrap_or(Reply::Fixed(Refusal::Unavailable))
        }
        Err(_) => Reply::Fixed(Refusal::Unavailable),
    }
}

/// A request that does not ask for detail is refused by the constant reply, whatever its body is.
pub fn law_no_detail_unless_asked()
    ensures { (question : Question) (refusal : ARefusal) → question.detail ≡ false
        → refused_as question refusal ≡ Refused refusal }
{}
