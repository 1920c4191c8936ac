//! Answers one tenant's request.
ghost use Rattle.std.specs.Prelude.{◌≡◌, ◌≢◌, ℕ, Ok, Err};
ghost use Rattle.sha2.specs.Sha256.{sha256};
ghost use Rattle.ledger_http.specs.Question.{question_of};
ghost use Rattle.wire.specs.Asked.{meaning_in};
ghost use Rattle.wire.specs.Meaning.{meaning_of, HasFew};
ghost use Rattle.service.specs.Calls.{BeginsOver, ServesOver};

use crate::batches::BatchEvents;
use crate::begun::Begun;
use crate::reading::begin_read;
use chain::Ledgers;
use ledger_http::{Asked, Refusal, Reply};
use std::alloc::Global;
use tenants::digest;
use wire::{Request, meaning, refused_reply};

// Serves a request that is not refused, and begins the reply.
fn serve_request<L: Ledgers>(
    alloc: Global,
    ledgers: &mut L,
    digest: &[u8; 32],
    request: Request,
    moment: u64,
) -> Begun
    requires few { HasFew request }
    ensures { BeginsOver L.means digest.now (Ok request) moment
        ledgers.old ledgers.new result }
{
    match request {
        Request::Accounts(events) => {
            BatchEvents::Accounts(events).begin(alloc, ledgers, digest, moment)
        }
        Request::Transfers(events) => {
            BatchEvents::Transfers(events).begin(alloc, ledgers, digest, moment)
        }
        Request::Read(read) => begin_read(alloc, ledgers, digest, read),
    }
}

// Refuses a request whose body is refused, unless there is no such tenant: that comes first.
fn refuse<L: Ledgers>(
    alloc: Global,
    ledgers: &mut L,
    digest: &[u8; 32],
    asked: &Asked,
    refusal: Refusal,
) -> Reply
    ensures { (moment : ℕ)
        → (refusal ≢ Refusal.Unavailable
        → meaning_of asked.now.route asked.now.account.now asked.now.body.now ≡ Err refusal)
        → ServesOver L.means digest.now (meaning_in (question_of asked.now)) moment
        ledgers.old ledgers.new result }
{
    let Ok(known) = ledgers.knows(digest) else {
        return Reply::Fixed(Refusal::Unavailable);
    };
    if known {
        refused_reply(alloc, asked, refusal)
    } else {
        Reply::Fixed(Refusal::UnknownKey)
    }
}

/// Begins the answer to what a message asks, at a moment in nanoseconds.
pub(crate) fn answer<L: Ledgers>(
    alloc: Global,
    ledgers: &mut L,
    asked: &Asked,
    moment: u64,
) -> Begun
    ensures { BeginsOver L.means (sha256 asked.now.key) (meaning_in (question_of asked.now)) moment
        ledgers.old ledgers.new result }
{
    let digest = digest(&asked.key);
    match meaning(alloc, asked) {
        Ok(request) => serve_request(alloc, ledgers, &digest, request, moment),
        Err(refusal) => Begun::whole(refuse(alloc, ledgers, &digest, asked, refusal)),
    }
}
