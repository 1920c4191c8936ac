//! Statements, which are told in parts.
ghost use Rattle.std.specs.Prelude.{◌≡◌, ◌≢◌, ℕ, Ok, Some};
ghost use Rattle.chain.specs.Ledgers.{Finds, KeepsAll};
ghost use Rattle.chain.specs.LedgerReads.{ReadsOnly};
ghost use Rattle.ledger_http.specs.ReplyText.{reply_text};
ghost use Rattle.wire.specs.declared.read.Read.TheVariants.{Statement};
ghost use Rattle.wire.specs.declared.request.Request.TheVariants.{Read};
ghost use Rattle.service.specs.Begun.{reply_with};
ghost use Rattle.service.specs.Calls.{BeginsOver};
ghost use Rattle.service.specs.Replies.{unavailable};

use crate::begun::Begun;
use crate::showing::{refusal_of, reply_to};
use chain::Ledgers;
use ledger_http::{Refusal, Reply};
use parts::Rest;
use statement::header_line;
use std::alloc::Global;
use wire::Outcome;

/// Begins the reply to who asks for an account's statement, oldest entry first.
pub(crate) fn begin_statement<L: Ledgers>(
    alloc: Global,
    ledgers: &mut L,
    digest: &[u8; 32],
    account: u128,
) -> Begun
    ensures { (moment : ℕ) → BeginsOver L.means digest.now (Ok (Read (Statement account))) moment
        ledgers.old ledgers.new result }
{
    let rest = Rest::whole(*digest, account);
    match rest.part(alloc, ledgers, header_line()) {
        Ok(part) => match reply_to(alloc, Outcome::Statement(part.chunks.into_vec().into())) {
            Ok(front) => Begun {
                front,
                rest: part.rest,
            },
            Err(_) => Begun::whole(Reply::Fixed(Refusal::Unavailable)),
        },
        Err(why) => Begun::whole(Reply::Fixed(refusal_of(why))),
    }
}

/// Reads what is left of a statement to which a reply is begun.
pub(crate) fn finish_statement<L: Ledgers>(
    alloc: Global,
    ledgers: &mut L,
    front: &Reply,
    rest: Rest,
) -> Reply
    ensures text { L.means.is_live ledgers.new → result ≢ unavailable → reply_text result
        ≡ reply_text (reply_with (L.means.tenants ledgers.old) front.now (Some rest)) }
    ensures finds { Finds L.means (result ≢ unavailable) KeepsAll ledgers.old ledgers.new }
    ensures reads { ReadsOnly L.means ledgers.old ledgers.new }
{
    let mut text = Vec::new(alloc);
    if text.extend_from_slice(front.bytes()).is_err() {
        return Reply::Fixed(Refusal::Unavailable);
    }
    let mut rest = rest;
    'parts: for _ in 0..u64::MAX {
        let Ok(part) = rest.part(alloc, ledgers, b"") else {
            return Reply::Fixed(Refusal::Unavailable);
        };
        if text.extend_from_slice(part.chunks.as_slice()).is_err() {
            return Reply::Fixed(Refusal::Unavailable);
        }
        match part.rest {
            Some(more) => rest = more,
            None => return Reply::Whole(text.into()),
        }
    }
    Reply::Fixed(Refusal::Unavailable)
}
