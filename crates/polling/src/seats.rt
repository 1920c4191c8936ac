//! Clients that are seated.
ghost use Rattle.std.specs.Prelude.{◌≡◌, false, Some, None, IsTrue, OnOk, OnErr};
ghost use Rattle.clients.specs.Talk.{new_talk};
ghost use Rattle.polling.specs.Seating.{SeatsNow, AreEmpty, AreSame, IsSeated, seats_in};

use clients::Client;
use std::alloc::{AllocError, Global};
use std::collections::BTreeMap;

/// Clients by numbers, none of which is used again.
#[derive(Drop)]
pub struct Seats {
    pub(crate) clients: BTreeMap<u64, Client>,
    // The next number, which was never used.
    pub(crate) next: u64,
}

impl Seats {
    /// Nobody is seated.
    pub fn new(alloc: Global) -> Seats
        ensures { AreEmpty result }
    {
        Seats {
            clients: BTreeMap::new(alloc),
            next: 0,
        }
    }
}

/// Gives a new client a seat.
pub(crate) fn seat(
    alloc: Global,
    clients: &mut BTreeMap<u64, Client>,
    number: u64,
) -> Result<(), AllocError>
    ensures ok { OnOk result (SeatsNow number (Some new_talk)
        (seats_in clients.old) (seats_in clients.new)) }
    ensures err { OnErr result (AreSame (seats_in clients.old) (seats_in clients.new)) }
{
    match clients.insert(number, Client::new(alloc)) {
        Ok(_) => Ok(()),
        Err(_) => Err(AllocError),
    }
}

/// Takes a client out of its seat. Says whether it was seated.
pub(crate) fn unseat(clients: &mut BTreeMap<u64, Client>, number: u64) -> bool
    ensures now { SeatsNow number None (seats_in clients.old) (seats_in clients.new) }
    ensures was { IsTrue result → IsSeated number (seats_in clients.old) }
    ensures none { result ≡ false → AreSame (seats_in clients.old) (seats_in clients.new) }
{
    clients.remove(&number).is_some()
}
