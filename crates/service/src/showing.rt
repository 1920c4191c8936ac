//! Replies that show outcomes.
ghost use Rattle.std.specs.Prelude.{◌≡◌, ◌≢◌, IfOk};
ghost use Rattle.ledger_http.specs.ReplyText.{reply_text};
ghost use Rattle.wire.specs.Told.{outcome_text};
ghost use Rattle.service.specs.Reading.{BeginsRead, ShowsPage, refusal_of};
ghost use Rattle.service.specs.Replies.{unavailable};

use crate::begun::Begun;
use chain::{Listed, QueryPage, ReadFault};
use ledger_http::{Refusal, Reply};
use std::alloc::{AllocError, Global};
use wire::{Entries, Items, Outcome, reply_bytes};

/// The reply that shows an outcome.
pub(crate) fn reply_to(alloc: Global, outcome: Outcome) -> Result<Reply, AllocError>
    ensures { IfOk result (λ reply. reply_text reply ≡ outcome_text outcome) }
{
    reply_bytes(alloc, &outcome)
}

/// The refusal that stands for a fault of a read.
pub(crate) fn refusal_of(fault: ReadFault) -> Refusal
    ensures { result ≡ refusal_of fault }
{
    match fault {
        ReadFault::UnknownKey => Refusal::UnknownKey,
        ReadFault::NoAccount => Refusal::NoAccount,
        ReadFault::NoHistory => Refusal::NoHistory,
        ReadFault::Unavailable(_) | ReadFault::Sink(_) => Refusal::Unavailable,
    }
}

/// The reply that shows what a read found.
pub(crate) fn shown(alloc: Global, outcome: Outcome) -> Reply
    ensures { result ≢ unavailable → reply_text result ≡ outcome_text outcome }
{
    match reply_to(alloc, outcome) {
        Ok(reply) => reply,
        Err(_) => Reply::Fixed(Refusal::Unavailable),
    }
}

/// Begins the reply to a read that lists, whose list is shown so.
pub(crate) fn begin_list<T, F: FnOnce(u64, Items<T>) -> Outcome + Drop>(
    alloc: Global,
    read: Result<Listed<T>, ReadFault>,
    shows: F,
) -> Begun
    requires { F.IsAlwaysCallable shows }
    ensures { BeginsRead (λ list. F.post shows list.clock list.entries.items) read result }
{
    match read {
        Ok(list) => Begun::whole(shown(alloc, shows(list.clock, list.entries.into()))),
        Err(why) => Begun::whole(Reply::Fixed(refusal_of(why))),
    }
}

/// Begins the reply to a read of a page, whose entries are shown so.
pub(crate) fn begin_page<T, F: FnOnce(Items<T>) -> Entries + Drop>(
    alloc: Global,
    read: Result<QueryPage<T>, ReadFault>,
    shows: F,
) -> Begun
    requires { F.IsAlwaysCallable shows }
    ensures { BeginsRead (ShowsPage (F.post shows)) read result }
{
    let page = match read {
        Ok(page) => page,
        Err(why) => return Begun::whole(Reply::Fixed(refusal_of(why))),
    };
    let outcome = Outcome::Page {
        clock: page.clock,
        next: page.next,
        entries: shows(page.entries.into()),
    };
    Begun::whole(shown(alloc, outcome))
}
