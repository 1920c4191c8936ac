//! Serving those who are gathered.
ghost use Rattle.std.specs.Prelude.{◌≡◌, ⊤, ℕ, [], ◌∷◌, ◌++◌};
ghost use Rattle.service.specs.Seen.{Whole};
ghost use Rattle.polling.specs.Serving.{rules};
ghost use Rattle.polling.specs.Standing.{A_turn, owing, turns_of};
ghost use Rattle.polling.specs.Seating.{ServesOwed, ServesEach, held, held_by, seats_in};
ghost use Rattle.polling.specs.Ring.{numbers_of};
ghost use Rattle.polling.specs.Steps.{RepliesUpTo};

use crate::gathering::{Chosen, Gathered};
use crate::seats::Seats;
use crate::serving::follow;
use crate::sharing::share_round;
use crate::turn::finish;
use crate::{Peers, Steward};
use chain::Rounds;
use clients::Client;
use service::Moments;
use std::alloc::Global;
use std::collections::BTreeMap;

/// Writes what is left of the reply to a client that is seated. Where nothing is, it has its turn,
/// if a reply is wanted. Then the client goes, where it is to. Of so many replies that are wanted it
/// says how many there were.
fn finish_one<L: Rounds, H: Steward<L>, C: Moments, P: Peers>(
    alloc: Global,
    peers: &mut P,
    seats: &mut Seats,
    number: u64,
    ledgers: &mut L,
    moments: &mut C,
    piece: &mut [u8],
    most: u64,
) -> u64
    ensures { RepliesUpTo most result
        (ServesOwed (rules L.means C.gives H.renews H.waits P.does) (result ≡ most)
        (owing A_turn number ∷ []) []
        (held_by ledgers.old moments.old peers.old seats.old)
        (held_by ledgers.new moments.new peers.new seats.new) result) }
{
    match seats.clients.get_mut(&number) {
        Some(client) => {
            let turned = finish::<L, H, C, P>(
                alloc,
                peers,
                number,
                client,
                ledgers,
                moments,
                piece,
                most > 0,
            );
            follow::<L, H, C, P>(peers, &mut seats.clients, number, turned.step);
            turned.replies()
        }
        None => 0,
    }
}

/// Does so for each of these clients.
fn finish_each<L: Rounds, H: Steward<L>, C: Moments, P: Peers>(
    alloc: Global,
    peers: &mut P,
    seats: &mut Seats,
    numbers: &[u64],
    ledgers: &mut L,
    moments: &mut C,
    piece: &mut [u8],
    most: u64,
) -> u64
    ensures { RepliesUpTo most result
        (ServesOwed (rules L.means C.gives H.renews H.waits P.does) (result ≡ most)
        (turns_of numbers.now) []
        (held_by ledgers.old moments.old peers.old seats.old)
        (held_by ledgers.new moments.new peers.new seats.new) result) }
{
    let mut replies = 0;
    for number in numbers {
        replies += finish_one::<L, H, C, P>(
            alloc,
            peers,
            seats,
            *number,
            ledgers,
            moments,
            piece,
            most - replies,
        );
    }
    replies
}

/// Answers the messages of these clients in one round, if they are several. Where none is answered
/// so, the next clients are served alone.
fn share<L: Rounds, H: Steward<L>, C: Moments, P: Peers>(
    alloc: Global,
    peers: &mut P,
    clients: &mut BTreeMap<u64, Client>,
    numbers: &[u64],
    ledgers: &mut L,
    moments: &mut C,
    gathered: &mut Gathered,
    most: u64,
) -> u64
    ensures replies { RepliesUpTo most result
        ((next : ℕ) →
        ServesEach (rules L.means C.gives H.renews H.waits P.does)
        (held (Whole ledgers.old) moments.old peers.old (seats_in clients.old) next)
        (held (Whole ledgers.new) moments.new peers.new (seats_in clients.new) next) result) }
    ensures same { gathered.new.ring ≡ gathered.old.ring }
{
    if numbers.len() < 2 {
        return 0;
    }
    let replies = share_round::<L, H, C, P>(alloc, peers, clients, numbers, ledgers, moments, most);
    if replies == 0 {
        gathered.serve_alone();
    }
    replies
}

/// Answers the messages that have their turns, with `most` replies at most: those that are no
/// batches one by one, and then the batches in one round. Returns how many replies there were.
fn answer_chosen<L: Rounds, H: Steward<L>, C: Moments, P: Peers>(
    alloc: Global,
    peers: &mut P,
    seats: &mut Seats,
    ledgers: &mut L,
    moments: &mut C,
    piece: &mut [u8],
    gathered: &mut Gathered,
    chosen: &Chosen,
    most: u64,
) -> u64
    ensures replies { RepliesUpTo most result
        (ServesOwed (rules L.means C.gives H.renews H.waits P.does) (result ≡ most)
        (turns_of chosen.now.others.items ++ turns_of chosen.now.batches.items) []
        (held_by ledgers.old moments.old peers.old seats.old)
        (held_by ledgers.new moments.new peers.new seats.new) result) }
    ensures same { gathered.new.ring ≡ gathered.old.ring }
{
    let others = chosen.others.as_slice();
    let answered = finish_each::<L, H, C, P>(
        alloc, peers, seats, others, ledgers, moments, piece, most,
    );
    let left = most - answered;
    let batches = chosen.batches.as_slice();
    let clients = &mut seats.clients;
    let shared = share::<L, H, C, P>(
        alloc, peers, clients, batches, ledgers, moments, gathered, left,
    );
    if shared > 0 {
        peers.shared(shared);
    }
    let room = left - shared;
    let more = finish_each::<L, H, C, P>(
        alloc, peers, seats, batches, ledgers, moments, piece, room,
    );
    answered + shared + more
}

/// Ends the turns: each client that waits keeps its place, and nothing is answered.
fn end_turns<L: Rounds, H: Steward<L>, C: Moments, P: Peers>(
    alloc: Global,
    peers: &mut P,
    seats: &mut Seats,
    ledgers: &mut L,
    moments: &mut C,
    piece: &mut [u8],
    gathered: &mut Gathered,
)
    ensures owed { ServesOwed (rules L.means C.gives H.renews H.waits P.does) ⊤
        (turns_of (numbers_of gathered.old.ring.waiting)) []
        (held_by ledgers.old moments.old peers.old seats.old)
        (held_by ledgers.new moments.new peers.new seats.new) 0 }
    ensures none { gathered.new.ring.waiting ≡ [] }
{
    while !gathered.is_empty() {
        let number = gathered.let_go();
        finish_one::<L, H, C, P>(alloc, peers, seats, number, ledgers, moments, piece, 0);
    }
}

/// Gives turns to messages that wait if no further ones are expected at once, with `most` replies
/// at most. Returns how many replies there were.
pub(crate) fn serve_due<L: Rounds, H: Steward<L>, C: Moments, P: Peers>(
    alloc: Global,
    peers: &mut P,
    seats: &mut Seats,
    ledgers: &mut L,
    moments: &mut C,
    piece: &mut [u8],
    gathered: &mut Gathered,
    most: u64,
) -> u64
    ensures replies { RepliesUpTo most result
        (ServesOwed (rules L.means C.gives H.renews H.waits P.does) (result ≡ most)
        (turns_of (numbers_of gathered.old.ring.waiting))
        (turns_of (numbers_of gathered.new.ring.waiting))
        (held_by ledgers.old moments.old peers.old seats.old)
        (held_by ledgers.new moments.new peers.new seats.new) result) }
    ensures all { result ≡ most → gathered.new.ring.waiting ≡ [] }
{
    if !gathered.is_due(peers.has_more(), most) {
        return 0;
    }
    let chosen = gathered.take_turns();
    let replies = answer_chosen::<L, H, C, P>(
        alloc, peers, seats, ledgers, moments, piece, gathered, &chosen, most,
    );
    if replies < most {
        return replies;
    }
    end_turns::<L, H, C, P>(alloc, peers, seats, ledgers, moments, piece, gathered);
    replies
}
