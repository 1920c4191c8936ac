ghost use Rattle.std.specs.Prelude.{◌≡◌, IfSome};
ghost use Rattle.service.specs.Calls.{RespondsOver};
ghost use Rattle.service.specs.Responds.{IsQuestion, IsLeftSame};
ghost use Rattle.service.specs.Begun.{reply_of};
ghost use Rattle.service.specs.Replies.{health_by, told_early};

use crate::answering::answer;
use crate::begun::Begun;
use crate::statements::finish_statement;
use chain::Ledgers;
use ledger_http::{Early, Refusal, Reply, asked};
use std::alloc::Global;

// Whether the ledgers serve.
fn health<L: Ledgers>(ledgers: &L) -> Reply
    ensures { result ≡ health_by (L.means.has_failed ledgers.now) }
{
    if ledgers.has_failed() {
        Reply::Fixed(Refusal::Unavailable)
    } else {
        Reply::Health
    }
}

// What is told before any tenant is looked up.
fn told_early<L: Ledgers>(ledgers: &L, early: Early) -> Reply
    ensures { result ≡ told_early (L.means.has_failed ledgers.now) early }
{
    match early {
        Early::Health => health(ledgers),
        Early::Page | Early::Refused(_) => Reply::from(early),
    }
}

/// Begins the reply to the first message of `bytes`, at a moment in nanoseconds. What stands behind
/// that message is not looked at, and no bytes at all are refused as cut short.
///
/// The reply and the caller's machine after it depend on the caller's machine, the bytes and the
/// moment alone; every other tenant's machine stays.
pub fn begin<L: Ledgers>(alloc: Global, ledgers: &mut L, bytes: &[u8], moment: u64) -> Begun
    ensures asks { IfSome result.rest (λ rest. IsQuestion bytes.now) }
    ensures left { IfSome result.rest (λ rest. L.means.is_live ledgers.new
        → IsLeftSame bytes.now moment (L.means.tenants ledgers.old)
        (L.means.tenants ledgers.new) rest) }
    ensures replies { RespondsOver L.means bytes.now moment ledgers.old ledgers.new
        (reply_of (L.means.tenants ledgers.new) result) }
{
    match asked(alloc, bytes) {
        Ok(asked) => answer(alloc, ledgers, &asked, moment),
        Err(early) => Begun::whole(told_early(ledgers, early)),
    }
}

/// The reply to the first message of `bytes`, at a moment in nanoseconds, as it is begun and then read
/// to its end.
pub fn respond<L: Ledgers>(alloc: Global, ledgers: &mut L, bytes: &[u8], moment: u64) -> Reply
    ensures { RespondsOver L.means bytes.now moment ledgers.old ledgers.new result }
{
    let Begun { front, rest } = begin(alloc, ledgers, bytes, moment);
    match rest {
        Some(rest) => finish_statement(alloc, ledgers, &front, rest),
        None => front,
    }
}
