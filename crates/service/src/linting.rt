//! Bodies that are judged and not booked.
ghost use Rattle.std.specs.Prelude.{ℕ, Ok};
ghost use Rattle.wire.specs.declared.read.Read.TheVariants.{Lint};
ghost use Rattle.wire.specs.declared.request.Request.TheVariants.{Read};
ghost use Rattle.service.specs.Calls.{BeginsOver, ServesOver};

use crate::begun::Begun;
use crate::showing::shown;
use chain::Ledgers;
use ledger_http::{Refusal, Reply};
use std::alloc::Global;
use wire::Outcome;

/// Begins the reply to a good body that is judged and not booked: how many events it has.
pub(crate) fn begin_lint<L: Ledgers>(
    alloc: Global,
    ledgers: &mut L,
    digest: &[u8; 32],
    events: usize,
) -> Begun
    ensures { (moment : ℕ) → BeginsOver L.means digest.now (Ok (Read (Lint events))) moment
        ledgers.old ledgers.new result }
{
    Begun::whole(lint(alloc, ledgers, digest, events))
}

// The reply to such a body, unless there is no such tenant.
fn lint<L: Ledgers>(alloc: Global, ledgers: &mut L, digest: &[u8; 32], events: usize) -> Reply
    ensures { (moment : ℕ) → ServesOver L.means digest.now (Ok (Read (Lint events))) moment
        ledgers.old ledgers.new result }
{
    let Ok(known) = ledgers.knows(digest) else {
        return Reply::Fixed(Refusal::Unavailable);
    };
    if known {
        shown(alloc, Outcome::Linted(events))
    } else {
        Reply::Fixed(Refusal::UnknownKey)
    }
}
