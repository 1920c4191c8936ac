//! Writing what is left of replies, where no further message is answered.
ghost use Rattle.std.specs.Prelude.{◌≡◌, Bool, false, IsTrue};
ghost use Rattle.service.specs.Seen.{Whole};
ghost use Rattle.polling.specs.Serving.{rules};
ghost use Rattle.polling.specs.Seating.{ServesOne, ServesAll, ServesNext, held_by};
ghost use Rattle.polling.specs.Ending.{IsToldAs, HasTurn, IsIdleNow, NothingIsLeft};
ghost use Rattle.polling.specs.Steps.{WritesRest};

use crate::seats::Seats;
use crate::serving::{follow, let_go};
use crate::step::Step;
use crate::turn::write_on;
use crate::{Peers, Steward, Told};
use chain::Ledgers;
use clients::Client;
use service::Moments;
use std::alloc::Global;
use std::collections::BTreeMap;

/// Whether nothing is left of any reply.
fn are_written(clients: &BTreeMap<u64, Client>) -> bool
    ensures { IsTrue result → NothingIsLeft clients.now }
{
    clients.values().all(|client| client.is_written())
}

/// Writes what is left of the reply to a client. There is more to do where not all is written.
fn write_left<L: Ledgers, H: Steward<L>, C: Moments, P: Peers>(
    alloc: Global,
    peers: &mut P,
    number: u64,
    client: &mut Client,
    ledgers: &mut L,
) -> Step
    ensures { (done : Step) × ((idle : Bool) × IsToldAs done idle result × ((moments : C) →
        ServesOne (rules L.means C.gives H.renews H.waits P.does) number
        (Whole ledgers.old) moments peers.old client.old
        (Whole ledgers.new) moments peers.new client.new done idle 0)) }
{
    match write_on::<L, H, C, P>(alloc, peers, number, client, ledgers) {
        Step::More => {
            if client.is_written() {
                return Step::Waits;
            }
            Step::More
        }
        Step::Waits => Step::Waits,
        Step::Goes => Step::Goes,
    }
}

/// Writes what is left of the reply to a client that is seated, and lets it go where its connection
/// is broken.
fn write_one<L: Ledgers, H: Steward<L>, C: Moments, P: Peers>(
    alloc: Global,
    peers: &mut P,
    seats: &mut Seats,
    number: u64,
    ledgers: &mut L,
)
    ensures { (moments : C) →
        ServesAll (rules L.means C.gives H.renews H.waits P.does)
        (held_by ledgers.old moments peers.old seats.old)
        (held_by ledgers.new moments peers.new seats.new) 0 }
{
    match seats.clients.get_mut(&number) {
        Some(client) => {
            let step = write_left::<L, H, C, P>(alloc, peers, number, client, ledgers);
            follow::<L, H, C, P>(peers, &mut seats.clients, number, step);
        }
        None => {}
    }
}

/// Lets a new client go, which has come too late.
fn turn_away<L: Ledgers, H: Steward<L>, C: Moments, P: Peers>(peers: &mut P, seats: &mut Seats)
    ensures { (ledgers : L) → (moments : C) →
        ServesNext (rules L.means C.gives H.renews H.waits P.does)
        (held_by ledgers moments peers.old seats.old)
        (held_by ledgers moments peers.new seats.new) }
{
    let number = seats.next;
    peers.close(number);
    if number == u64::MAX {
        return;
    }
    seats.next += 1;
}

/// Does what the next thing that has happened asks for, but answers no message and takes nothing
/// in. Says whether anything had happened.
fn write_next<L: Ledgers, H: Steward<L>, C: Moments, P: Peers>(
    alloc: Global,
    peers: &mut P,
    seats: &mut Seats,
    ledgers: &mut L,
) -> bool
    ensures turn { IsTrue result → (moments : C) →
        HasTurn (rules L.means C.gives H.renews H.waits P.does)
        (held_by ledgers.old moments peers.old seats.old)
        (held_by ledgers.new moments peers.new seats.new) 0 }
    ensures quiet { result ≡ false → (moments : C) →
        IsIdleNow (rules L.means C.gives H.renews H.waits P.does)
        (held_by ledgers.old moments peers.old seats.old)
        (held_by ledgers.new moments peers.new seats.new) 0 }
{
    match peers.told(seats.next) {
        Told::Joined => {
            turn_away::<L, H, C, P>(peers, seats);
            true
        }
        Told::Ready(number) => {
            write_one::<L, H, C, P>(alloc, peers, seats, number, ledgers);
            true
        }
        Told::Late(number) => {
            let_go::<L, H, C, P>(peers, seats, number);
            true
        }
        Told::Nothing => false,
    }
}

/// Writes what is left of all replies, until nothing is, or nothing more has happened. No message
/// is answered, and nothing is taken in; who is late is let go, and so is who comes.
pub fn write_rest<L: Ledgers, H: Steward<L>, C: Moments, P: Peers>(
    alloc: Global,
    peers: &mut P,
    seats: &mut Seats,
    ledgers: &mut L,
)
    ensures { WritesRest (rules L.means C.gives H.renews H.waits P.does) seats.new.clients
        (λ moments. held_by ledgers.old moments peers.old seats.old)
        (λ moments. held_by ledgers.new moments peers.new seats.new) }
{
    for _ in 0..u64::MAX {
        if are_written(&seats.clients) {
            return;
        }
        if !write_next::<L, H, C, P>(alloc, peers, seats, ledgers) {
            return;
        }
    }
}
