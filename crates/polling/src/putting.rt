//! Replies to the clients of a round.
ghost use Rattle.std.specs.Prelude.{◌≤◌, length, IfSome};
ghost use Rattle.polling.specs.Round.{AreCopied, ArePut, AreToldLost, IsHandedTo, IsPutTo};
ghost use Rattle.polling.specs.Seating.{seats_in};
ghost use Rattle.polling.specs.Steps.{PutsUpTo};

use crate::round::{Member, Round};
use crate::{Batch, Peers, Steward};
use chain::Ledgers;
use clients::{Client, rounds_reply};
use ledger_http::{Refusal, Reply, meanings_are_unique};
use service::Moments;
use std::collections::BTreeMap;

/// Puts the reply to the message of a client, which is taken.
fn put_one(clients: &mut BTreeMap<u64, Client>, member: Member, reply: Reply)
    requires { IfSome (seats_in clients.old member.number) (λ talk.
        member.size ≤ length talk.unread.bytes) }
    ensures { IsPutTo member reply (seats_in clients.old) (seats_in clients.new) }
{
    match clients.get_mut(&member.number) {
        Some(client) => client.put_reply(member.size, reply),
        None => {}
    }
}

/// Puts the reply to the message of a client, which is taken, and hands it to those who are
/// connected.
fn hand_one<P: Peers>(
    peers: &mut P,
    clients: &mut BTreeMap<u64, Client>,
    member: Member,
    reply: Reply,
)
    requires { IfSome (seats_in clients.old member.number) (λ talk.
        member.size ≤ length talk.unread.bytes) }
    ensures { IsHandedTo P.does member reply peers.old (seats_in clients.old) peers.new
        (seats_in clients.new) }
{
    let number = member.number;
    match clients.get_mut(&number) {
        Some(client) => {
            let batch = Batch::of(client.front(member.size));
            client.put_reply(member.size, reply);
            peers.answered(number, batch, client.unsent());
        }
        None => {}
    }
}

/// Puts the replies of a round that was kept, each of which is handed to those who are connected,
/// and says how many there were.
pub(crate) fn put_all<L: Ledgers, H: Steward<L>, C: Moments, P: Peers>(
    peers: &mut P,
    clients: &mut BTreeMap<u64, Client>,
    round: &Round,
    replies: Vec<Reply>,
) -> u64
    requires { AreCopied (seats_in clients.old) round.now.members.items round.now.messages.items }
    ensures { PutsUpTo (length round.now.members.items) result
        (ArePut L.means C.gives H.renews H.waits P.does round.now.messages.items replies.items
        peers.old (seats_in clients.old) peers.new (seats_in clients.new) result) }
{
    rounds_reply::<L, C>();
    let mut rest = replies.into_iter();
    let mut count = 0;
    for member in &round.members {
        let Some(reply) = rest.next() else {
            return count;
        };
        hand_one(peers, clients, *member, reply);
        count += 1;
    }
    count
}

/// Tells all clients of a round that the ledgers are unavailable, and says how many there are.
pub(crate) fn tell_all<L: Ledgers, H: Steward<L>, C: Moments, P: Peers>(
    clients: &mut BTreeMap<u64, Client>,
    round: &Round,
) -> u64
    requires { AreCopied (seats_in clients.old) round.now.members.items round.now.messages.items }
    ensures { PutsUpTo (length round.now.members.items) result
        (AreToldLost L.means C.gives H.renews H.waits P.does round.now.messages.items
        (seats_in clients.old) (seats_in clients.new) result) }
{
    rounds_reply::<L, C>();
    meanings_are_unique();
    let mut count = 0;
    for member in &round.members {
        put_one(clients, *member, Reply::Fixed(Refusal::Unavailable));
        count += 1;
    }
    count
}
