//! Messages of many clients, answered in one round.
ghost use Rattle.std.specs.Prelude.{◌≡◌, ◌≤◌, [], IfOk, OnErr, length, vec_len, vec_capacity};
ghost use Rattle.service.specs.Openings.{run_meaning};
ghost use Rattle.service.specs.Turns.{MovesInRound, MovesEach};

use crate::laws::responses_move;
use crate::settles::Settles;
use crate::turns::{Message, Turns};
use chain::{Ledgers, Rounds};
use ledger_http::{Reply, meanings_are_unique};
use std::alloc::Global;
use wire::NoMemory;

// Answers messages one by one, each for itself. There is room for their replies.
fn respond_each<L: Ledgers, H: Settles<L>>(
    alloc: Global,
    ledgers: &mut L,
    messages: &[Message],
    mut replies: Vec<Reply>,
) -> Vec<Reply>
    requires none { replies.items ≡ [] }
    requires empty { vec_len replies ≡ 0 }
    requires room { length messages.now ≤ vec_capacity replies }
    ensures moves { MovesEach (run_meaning L.means) ledgers.old messages.now result.items
        ledgers.new }
    ensures stays { L.means.follows ledgers.old ledgers.new }
{
    responses_move::<L>();
    for message in messages {
        let reply = message.respond(alloc, ledgers);
        H::is_settled(ledgers);
        replies.push_reserved(reply);
    }
    replies
}

/// The replies to messages, in order: each is what `respond` gives to its message, at its moment,
/// over the ledgers as those before it left them.
///
/// All are answered in one round, of which everything is kept or nothing. Where that is refused
/// they are answered one by one: so a message that cannot be answered takes no other with it. Room
/// for all replies is made first: where memory lacks for it, nothing is done.
pub fn respond_round<L: Rounds, H: Settles<L>>(
    alloc: Global,
    ledgers: &mut L,
    messages: &[Message],
) -> Result<Vec<Reply>, NoMemory>
    ensures moves { IfOk result (λ replies. MovesInRound (run_meaning L.means) ledgers.old
        messages.now replies.items ledgers.new) }
    ensures undone { OnErr result (ledgers.new ≡ ledgers.old) }
    ensures follows { L.means.follows ledgers.old ledgers.new }
{
    let replies = Vec::with_capacity(alloc, messages.len())?;
    meanings_are_unique();
    let round = ledgers.in_round(Turns { alloc, messages });
    H::is_settled(ledgers);
    match round {
        Ok(replies) => Ok(replies),
        Err(_) => Ok(respond_each::<L, H>(alloc, ledgers, messages, replies)),
    }
}
