//! Messages that wait for their turns. The turns go round the tenants, and then round a tenant's
//! clients.
ghost use Rattle.std.specs.Prelude.{◌≡◌, ◌≢◌, ◌<◌, ◌++◌, ◌∷◌, [], false, length, IfSome, IfNone, IsTrue, OnOk, OnErr, Contains};
ghost use Rattle.polling.specs.Ring.{Order, HasTurnNow, IsNextPlace, is_before, numbers_of, with_waiting};

use std::alloc::{AllocError, Global};
use std::marker::Model;

/// A whole message that waits for its turn.
#[derive(Clone, Copy, Debug, PartialEq, Eq)]
pub(crate) struct Waiting {
    /// The number of its client.
    pub(crate) number: u64,
    /// Which tenant it is of.
    pub(crate) tenant: u128,
    /// How much it takes of what is answered at once, in bytes.
    pub(crate) weight: usize,
    /// Whether it is a batch, which may share a round.
    pub(crate) is_batch: bool,
}

/// Messages that wait for their turns, and which tenant had the last one.
#[derive(Drop)]
pub(crate) struct Ring {
    // In the order in which they came.
    waiting: Vec<Waiting>,
    last: u128,
}

impl Model for Ring {
    ghost use Rattle.polling.specs.Ring.{Order};

    ghost Value = { Order };

    ghost view = { λ ring. record { waiting = ring.waiting.items; last = ring.last } };
}

// Whether one tenant's turn is before another's, where this one had the last. Turns go up from
// there to the greatest, and on from the least up to the last.
fn is_before(last: u128, one: u128, other: u128) -> bool
    ensures { result ≡ is_before last one other }
{
    if last < other {
        last < one && one < other
    } else {
        last < one || one < other
    }
}

// Where the message stands whose turn is next. Of those of one tenant it is the first that came.
fn next_place(waiting: &[Waiting], last: u128) -> usize
    requires { 0 < length waiting.now }
    ensures { IsNextPlace last waiting.now result }
{
    let mut place = 0;
    let mut next = waiting[0];
    for index in 1..waiting.len() {
        let other = waiting[index];
        if is_before(last, other.tenant, next.tenant) {
            place = index;
            next = other;
        }
    }
    place
}

impl Ring {
    pub(crate) fn new(alloc: Global) -> Ring
        ensures { result.waiting ≡ [] }
    {
        Ring {
            waiting: Vec::new(alloc),
            last: 0,
        }
    }

    pub(crate) fn is_empty(&self) -> bool
        ensures none { IsTrue result → self.now.waiting ≡ [] }
        ensures some { result ≡ false → self.now.waiting ≢ [] }
    {
        self.waiting.is_empty()
    }

    /// How many messages wait.
    pub(crate) fn len(&self) -> usize
        ensures { result ≡ length self.now.waiting }
    {
        self.waiting.len()
    }

    /// Whether a message of this client waits.
    pub(crate) fn holds(&self, number: u64) -> bool
        ensures { IsTrue result → Contains (numbers_of self.now.waiting) number }
    {
        self.waiting.iter().any(|waiting| waiting.number == number)
    }

    /// A message waits for its turn from now on.
    pub(crate) fn wait(&mut self, waiting: Waiting) -> Result<(), AllocError>
        ensures ok { OnOk result (self.new ≡ with_waiting waiting self.old) }
        ensures err { OnErr result (self.new ≡ self.old) }
    {
        match self.waiting.push(waiting) {
            Ok(()) => Ok(()),
            Err(_) => Err(AllocError),
        }
    }

    /// Takes out the message whose turn is next, unless it takes more than this.
    pub(crate) fn turn(&mut self, most: usize) -> Option<Waiting>
        ensures some { IfSome result (λ waiting. HasTurnNow self.old waiting self.new) }
        ensures none { IfNone result (self.new ≡ self.old) }
    {
        if self.waiting.is_empty() {
            return None;
        }
        let place = next_place(&self.waiting, self.last);
        if self.waiting[place].weight > most {
            return None;
        }
        let waiting = self.waiting.remove(place);
        self.last = waiting.tenant;
        Some(waiting)
    }

    /// Removes the message that came first, without a turn, and returns the number of its client.
    pub(crate) fn let_go(&mut self) -> u64
        requires { self.old.waiting ≢ [] }
        ensures first { numbers_of self.old.waiting ≡ result ∷ numbers_of self.new.waiting }
        ensures less { length self.new.waiting < length self.old.waiting }
    {
        self.waiting.remove(0).number
    }
}
