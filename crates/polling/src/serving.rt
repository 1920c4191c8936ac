//! Serving all who are ready.
ghost use Rattle.std.specs.Prelude.{◌≡◌, ◌≢◌, ◌⊎◌, ◌<◌, false, [], ◌∷◌, ◌++◌, IsTrue};
ghost use Rattle.polling.specs.Peers.{Said};
ghost use Rattle.polling.specs.Ring.{numbers_of};
ghost use Rattle.polling.specs.Serving.{rules};
ghost use Rattle.polling.specs.Standing.{A_turn, An_end, owing, told_of, turns_of};
ghost use Rattle.polling.specs.Seating.{IsFollowed, ServesNext, ServesOwed, ServesTold, seats_in, held_by};
ghost use Rattle.polling.specs.Ending.{HasDone, replies_of};
ghost use Rattle.polling.specs.declared.peers.Told.TheVariants.{Late, Nothing};
ghost use Rattle.polling.specs.Steps.{RepliesUpTo, ServesReady, TellsMore};

use crate::gathered::serve_due;
use crate::gathering::{Gathered, Place};
use crate::seats::{Seats, seat, unseat};
use crate::step::Step;
use crate::turn::turn;
use crate::{Peers, Steward, Told};
use chain::{Ledgers, Rounds};
use clients::Client;
use service::Moments;
use std::alloc::Global;
use std::collections::BTreeMap;

/// Does what a client's step asks for: it is told as ready again, or goes.
pub(crate) fn follow<L: Ledgers, H: Steward<L>, C: Moments, P: Peers>(
    peers: &mut P,
    clients: &mut BTreeMap<u64, Client>,
    number: u64,
    step: Step,
)
    ensures followed { IsFollowed (rules L.means C.gives H.renews H.waits P.does) number step
        peers.old (seats_in clients.old) peers.new (seats_in clients.new) }
    ensures waits { step ≡ Step.Waits → (peers.new ≡ peers.old) × (clients.new ≡ clients.old) }
{
    match step {
        Step::More => peers.again(number),
        Step::Waits => {}
        Step::Goes => {
            let _ = unseat(clients, number);
            peers.close(number);
        }
    }
}

/// Gives a client that is seated its turn, and lets it go where it is to. Says how many messages
/// were replied to.
fn serve_one<L: Ledgers, H: Steward<L>, C: Moments, P: Peers>(
    alloc: Global,
    peers: &mut P,
    seats: &mut Seats,
    number: u64,
    ledgers: &mut L,
    moments: &mut C,
    piece: &mut [u8],
) -> u64
    ensures { RepliesUpTo 1 result
        (ServesOwed (rules L.means C.gives H.renews H.waits P.does) ⊥
        (owing A_turn number ∷ []) []
        (held_by ledgers.old moments.old peers.old seats.old)
        (held_by ledgers.new moments.new peers.new seats.new) result) }
{
    match seats.clients.get_mut(&number) {
        Some(client) => {
            let turned = turn::<L, H, C, P>(alloc, peers, number, client, ledgers, moments, piece);
            follow::<L, H, C, P>(peers, &mut seats.clients, number, turned.step);
            turned.replies()
        }
        None => 0,
    }
}

/// Gives a new client a seat. Where memory is wanting for it, the client is let go.
fn join<L: Ledgers, H: Steward<L>, C: Moments, P: Peers>(
    alloc: Global,
    peers: &mut P,
    seats: &mut Seats,
)
    ensures { (ledgers : L) → (moments : C) →
        ServesNext (rules L.means C.gives H.renews H.waits P.does)
        (held_by ledgers moments peers.old seats.old)
        (held_by ledgers moments peers.new seats.new) }
{
    let number = seats.next;
    if number == u64::MAX {
        peers.close(number);
        return;
    }
    seats.next += 1;
    match seat(alloc, &mut seats.clients, number) {
        Ok(()) => {}
        Err(_) => peers.close(number),
    }
}

/// Lets a client go that was told as late.
pub(crate) fn let_go<L: Ledgers, H: Steward<L>, C: Moments, P: Peers>(
    peers: &mut P,
    seats: &mut Seats,
    number: u64,
)
    ensures { (ledgers : L) → (moments : C) →
        ServesTold (rules L.means C.gives H.renews H.waits P.does) (Late number)
        (owing An_end number ∷ []) []
        (held_by ledgers moments peers.old seats.old)
        (held_by ledgers moments peers.new seats.new) 0 }
{
    if unseat(&mut seats.clients, number) {
        peers.close(number);
    }
}

/// What was done of what has happened.
#[derive(Clone, Copy, Debug, PartialEq, Eq)]
enum Done {
    /// Nothing had happened.
    Nothing,
    /// Something was done, and so many messages were replied to.
    Served(u64),
}

/// Does what was told, and says how many messages were replied to. A client that is ready is
/// gathered where its next message may share a round. It is put off where enough records are looked
/// at in this turn, or the steward says so. Any other has its turn.
fn serve_told<L: Rounds, H: Steward<L>, C: Moments, P: Peers>(
    alloc: Global,
    peers: &mut P,
    seats: &mut Seats,
    ledgers: &mut L,
    steward: &H,
    moments: &mut C,
    piece: &mut [u8],
    gathered: &mut Gathered,
    told: Told,
) -> u64
    ensures { RepliesUpTo 1 result
        (ServesTold (rules L.means C.gives H.renews H.waits P.does) told
        (told_of seats.old.next told ++ turns_of (numbers_of gathered.old.ring.waiting))
        (turns_of (numbers_of gathered.new.ring.waiting))
        (held_by ledgers.old moments.old peers.old seats.old)
        (held_by ledgers.new moments.new peers.new seats.new) result) }
{
    match told {
        Told::Joined => {
            join::<L, H, C, P>(alloc, peers, seats);
            0
        }
        Told::Ready(number) => match gathered.place::<L, H>(
            alloc,
            &mut seats.clients,
            number,
            steward,
        ) {
            Place::Gathered => 0,
            Place::Later => {
                peers.again(number);
                0
            }
            Place::Now => {
                serve_one::<L, H, C, P>(alloc, peers, seats, number, ledgers, moments, piece)
            }
        },
        Told::Late(number) => {
            let_go::<L, H, C, P>(peers, seats, number);
            0
        }
        Told::Nothing => {
            gathered.close();
            0
        }
    }
}

/// Whether nothing had happened, and nobody is gathered.
fn is_over(told: Told, gathered: &Gathered) -> bool
    ensures over { IsTrue result → (told ≡ Nothing) × (gathered.now.ring.waiting ≡ []) }
    ensures more { result ≡ false → (told ≢ Nothing) ⊎ (gathered.now.ring.waiting ≢ []) }
{
    gathered.is_empty() && matches!(told, Told::Nothing)
}

/// The next thing that has happened. It waits for one only if it may.
fn tell<P: Peers>(peers: &mut P, fresh: u64, may_wait: bool) -> Told
    ensures { P.does peers.old (Said fresh result) peers.new }
{
    if may_wait {
        peers.told(fresh)
    } else {
        peers.told_at_once(fresh)
    }
}

/// Does what the next thing that has happened asks for, and serves those who are gathered where
/// nobody more is to be waited for. Before that the steward attends to the ledgers.
fn serve_next<L: Rounds, H: Steward<L>, C: Moments, P: Peers>(
    alloc: Global,
    peers: &mut P,
    seats: &mut Seats,
    ledgers: &mut L,
    steward: &mut H,
    moments: &mut C,
    piece: &mut [u8],
    gathered: &mut Gathered,
    most: u64,
) -> Done
    requires { 0 < most }
    ensures does { HasDone (rules L.means C.gives H.renews H.waits P.does)
        (held_by ledgers.old moments.old peers.old seats.old)
        (held_by ledgers.new moments.new peers.new seats.new) result }
    ensures turns { RepliesUpTo most (replies_of result)
        (ServesOwed (rules L.means C.gives H.renews H.waits P.does)
        (replies_of result ≡ most)
        (turns_of (numbers_of gathered.old.ring.waiting))
        (turns_of (numbers_of gathered.new.ring.waiting))
        (held_by ledgers.old moments.old peers.old seats.old)
        (held_by ledgers.new moments.new peers.new seats.new) (replies_of result)) }
    ensures all { (result ≡ Done.Nothing) ⊎ (replies_of result ≡ most) →
        gathered.new.ring.waiting ≡ [] }
    ensures more { result ≢ Done.Nothing →
        TellsMore P.does seats.old.next gathered.old.ring.waiting peers.old }
{
    steward.attend(ledgers, moments);
    let told = tell(peers, seats.next, gathered.is_empty());
    if is_over(told, gathered) {
        return Done::Nothing;
    }
    let replies = serve_told::<L, H, C, P>(
        alloc, peers, seats, ledgers, steward, moments, piece, gathered, told,
    );
    let room = most - replies;
    let more = serve_due::<L, H, C, P>(
        alloc, peers, seats, ledgers, moments, piece, gathered, room,
    );
    Done::Served(replies + more)
}

/// Serves all who are ready, one turn after the other, until nothing more has happened or so many
/// messages were replied to, and says how many were. Messages that are ready at once share a round.
/// Before each turn the steward attends to the ledgers: opens them again where they have failed,
/// does what an operator asks for, and a piece of what is due.
pub fn serve_ready<L: Rounds, H: Steward<L>, C: Moments, P: Peers>(
    alloc: Global,
    peers: &mut P,
    seats: &mut Seats,
    ledgers: &mut L,
    steward: &mut H,
    moments: &mut C,
    piece: &mut [u8],
    most: u64,
) -> u64
    ensures { ServesReady (rules L.means C.gives H.renews H.waits P.does) most
        (held_by ledgers.old moments.old peers.old seats.old)
        (held_by ledgers.new moments.new peers.new seats.new) result }
{
    let mut gathered = Gathered::new(alloc);
    let mut replies = 0;
    for _ in 0..u64::MAX {
        if replies == most {
            return replies;
        }
        match serve_next(
            alloc,
            peers,
            seats,
            ledgers,
            steward,
            moments,
            piece,
            &mut gathered,
            most - replies,
        ) {
            Done::Nothing => return replies,
            Done::Served(more) => replies += more,
        }
    }
    replies
}
