//! Messages of clients, copied for a round.
ghost use Rattle.std.specs.Prelude.{◌≡◌, ◌≤◌, ◌<◌, ◌+◌, ℕ, false, [], Option, length, IsTrue, vec_len, vec_capacity};
ghost use Rattle.clients.specs.Talk.{Talk};
ghost use Rattle.polling.specs.Round.{IsCopyOf, IsNoneOf, AreGathered};
ghost use Rattle.polling.specs.Seating.{AreSame, seats_in};
ghost use Rattle.polling.specs.Steps.{CopiesNext, CopiesOne};

use clients::Client;
use ledger_http::asked;
use service::{Message, Moments};
use std::alloc::Global;
use std::collections::BTreeMap;

/// A client in a round, and how long its message is.
#[derive(Clone, Copy, Debug, PartialEq, Eq)]
pub(crate) struct Member {
    pub(crate) number: u64,
    pub(crate) size: usize,
}

/// The messages of a round, each behind its client.
#[derive(Drop)]
pub(crate) struct Round {
    pub(crate) members: Vec<Member>,
    pub(crate) messages: Vec<Message>,
}

/// A message that was copied, and how long it is.
#[derive(Drop)]
struct Copied {
    size: usize,
    bytes: Vec<u8>,
}

impl Round {
    pub(crate) fn new(alloc: Global) -> Round
        ensures members { result.members.items ≡ [] }
        ensures messages { result.messages.items ≡ [] }
    {
        Round {
            members: Vec::new(alloc),
            messages: Vec::new(alloc),
        }
    }
}

/// A client's next message, if it may be answered, is whole and asks something. There is none where
/// memory is wanting for it.
fn next_message(alloc: Global, client: &mut Client) -> Option<Copied>
    ensures { CopiesOne client.old client.new result
        (λ copied. IsCopyOf client.old copied.size copied.bytes.items) }
{
    if !client.may_answer() {
        return None;
    }
    let size = client.next_size()?;
    let front = client.front(size);
    let Ok(_) = asked(alloc, front) else {
        return None;
    };
    let mut bytes = Vec::new(alloc);
    match bytes.extend_from_slice(front) {
        Ok(()) => Some(Copied { size, bytes }),
        Err(_) => None,
    }
}

/// Whether a client is in a round.
fn is_among(members: &[Member], number: u64) -> bool
    ensures { result ≡ false → IsNoneOf number members.now }
{
    for member in members {
        if member.number == number {
            return true;
        }
    }
    false
}

/// Whether there is room for one more message in a round, or it could be made.
fn makes_room(round: &mut Round) -> bool
    ensures members { round.new.members.items ≡ round.old.members.items }
    ensures messages { round.new.messages.items ≡ round.old.messages.items }
    ensures room { IsTrue result → vec_len round.new.members < vec_capacity round.new.members }
    ensures room_too { IsTrue result →
        vec_len round.new.messages < vec_capacity round.new.messages }
{
    round.members.reserve(1).is_ok() && round.messages.reserve(1).is_ok()
}

/// Copies the next message of a client into a round, unless the client is in it.
fn copy_in<C: Moments>(
    alloc: Global,
    clients: &mut BTreeMap<u64, Client>,
    number: u64,
    moments: &mut C,
    round: &mut Round,
)
    ensures same { AreSame (seats_in clients.old) (seats_in clients.new) }
    ensures gathered { (seats : ℕ → Option Talk) → (first : C) →
        AreSame seats (seats_in clients.old) →
        AreGathered C.gives seats first round.old.members.items
        round.old.messages.items moments.old →
        AreGathered C.gives seats first round.new.members.items
        round.new.messages.items moments.new }
    ensures few { length round.new.members.items ≤ length round.old.members.items + 1 }
{
    if is_among(&round.members, number) {
        return;
    }
    let Some(client) = clients.get_mut(&number) else {
        return;
    };
    let Some(copied) = next_message(alloc, client) else {
        return;
    };
    if !makes_room(round) {
        return;
    }
    let moment = moments.moment();
    round.members.push_reserved(Member {
        number,
        size: copied.size,
    });
    round.messages.push_reserved(Message {
        bytes: copied.bytes,
        moment,
    });
}

/// Copies the next messages of clients into a round, of so many at most.
pub(crate) fn copy_all<C: Moments>(
    alloc: Global,
    clients: &mut BTreeMap<u64, Client>,
    numbers: &[u64],
    moments: &mut C,
    most: u64,
) -> Round
    ensures { CopiesNext C.gives (seats_in clients.old) (seats_in clients.new) moments.old
        result.members.items result.messages.items moments.new most }
{
    let mut round = Round::new(alloc);
    for number in numbers {
        if round.members.len() as u64 >= most {
            return round;
        }
        copy_in(alloc, clients, *number, moments, &mut round);
    }
    round
}
