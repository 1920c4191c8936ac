//! Messages that wait for their turns, and how many of them are answered at once.
ghost use Rattle.std.specs.Prelude.{◌≡◌, ◌≢◌, ◌⊎◌, ◌<◌, ◌≤◌, ◌∷◌, [], true, false, IsTrue, length};
ghost use Rattle.arrayvec.specs.ArrayVec.{array_vec_len};
ghost use Rattle.polling.specs.Kinds.{IsKind, IsPlaced};
ghost use Rattle.polling.specs.Ring.{numbers_of};
ghost use Rattle.polling.specs.Seating.{AreSame, seats_in};
ghost use Rattle.polling.specs.Steps.{GathersNext, IsAdded, TakesTurns, TellsKind};

use crate::ring::{Ring, Waiting};
use crate::tenant::tenant_of;
use crate::{Batch, Steward};
use arrayvec::ArrayVec;
use chain::Ledgers;
use clients::Client;
use std::alloc::Global;
use std::collections::BTreeMap;

/// The most messages that are answered at once.
pub(crate) const MOST_TURNS: usize = 32;

/// The most bytes of messages that are answered at once, unless one alone has more.
const MOST_BYTES: usize = 128 * 1024;

/// A message with more bytes than this is not added to others that are answered at once: they would
/// wait for it.
const MOST_ADDED: usize = 32 * 1024;

/// How many clients are served alone behind a round that was not kept.
const ALONE: u64 = 32;

/// A page of records counts as this many bytes, since it looks at 2,000 records. So at most five
/// are answered at once.
const PAGE_BYTES: usize = MOST_BYTES / 5;

/// A message that is no batch has its turn at once unless it is longer than this, in bytes.
const SHORT: usize = 4096;

/// What becomes of a client who is ready.
#[derive(Clone, Copy, Debug, PartialEq, Eq)]
pub(crate) enum Place {
    /// It is gathered: its next message waits for its turn.
    Gathered,
    /// It has its turn.
    Now,
    /// It keeps its place for the next turn: the supervisor defers it.
    Later,
}

/// Those whose next messages wait for their turns.
#[derive(Drop)]
pub(crate) struct Gathered {
    ring: Ring,
    // Whether nobody more is to be waited for.
    is_closed: bool,
    // So many more are served alone.
    alone: u64,
}

/// Clients whose messages have their turns.
#[derive(Drop)]
pub(crate) struct Chosen {
    /// Those whose messages are no batches. They are answered one by one.
    pub(crate) others: ArrayVec<u64, MOST_TURNS>,
    /// Those whose messages are batches. They may share a round.
    pub(crate) batches: ArrayVec<u64, MOST_TURNS>,
}

/// What a client's next message is.
#[derive(Clone, Copy, Debug, PartialEq, Eq)]
enum Kind {
    /// A batch, with its length in bytes.
    Batch(usize),
    /// A batch that the supervisor defers.
    PutOff,
    /// A page of records, which takes as long as it looks at.
    Page,
    /// Another message that is long, with its length in bytes.
    Long(usize),
    /// Any other, or none that may be answered and is whole.
    Other,
}

impl Kind {
    /// What a message is, by its beginning and its length.
    fn of(front: &[u8]) -> Kind
        ensures { IsKind front.now result }
    {
        if Batch::of(front).is_some() {
            Kind::Batch(front.len())
        } else if front.starts_with(b"POST /query/")
            || front.starts_with(b"POST /pending/open ")
            || front.starts_with(b"POST /history/")
        {
            Kind::Page
        } else if front.len() > SHORT {
            Kind::Long(front.len())
        } else {
            Kind::Other
        }
    }
}

/// What a client's next message is. It waits until the last reply is written.
fn next_kind<L: Ledgers, H: Steward<L>>(client: &mut Client, steward: &H) -> Kind
    ensures { TellsKind H.waits client.old client.new result }
{
    if !client.may_answer() {
        return Kind::Other;
    }
    let Some(size) = client.next_size() else {
        return Kind::Other;
    };
    let message = client.front(size);
    match Kind::of(message) {
        Kind::Batch(_) if steward.puts_off(message) => Kind::PutOff,
        kind => kind,
    }
}

/// The tenant of a client's next message, if that has come whole.
fn next_tenant(alloc: Global, client: &mut Client) -> u128
    ensures { client.new ≡ client.old }
{
    match client.next_size() {
        Some(size) => tenant_of(alloc, client.front(size)),
        None => 0,
    }
}

impl Chosen {
    fn new() -> Chosen
        ensures others { result.others.items ≡ [] }
        ensures batches { result.batches.items ≡ [] }
    {
        Chosen {
            others: ArrayVec::new(),
            batches: ArrayVec::new(),
        }
    }

    // One more has its turn.
    fn add(&mut self, waiting: Waiting)
        requires others { array_vec_len self.old.others < 32 }
        requires batches { array_vec_len self.old.batches < 32 }
        ensures { IsAdded waiting self.old self.new }
    {
        if waiting.is_batch {
            self.batches.push(waiting.number);
        } else {
            self.others.push(waiting.number);
        }
    }
}

impl Gathered {
    pub(crate) fn new(alloc: Global) -> Gathered
        ensures { result.ring.waiting ≡ [] }
    {
        Gathered {
            ring: Ring::new(alloc),
            is_closed: false,
            alone: 0,
        }
    }

    pub(crate) fn is_empty(&self) -> bool
        ensures none { IsTrue result → self.now.ring.waiting ≡ [] }
        ensures some { result ≡ false → self.now.ring.waiting ≢ [] }
    {
        self.ring.is_empty()
    }

    /// Nobody more is to be waited for.
    pub(crate) fn close(&mut self)
        ensures { self.new ≡ record self.old { is_closed = true } }
    {
        self.is_closed = true;
    }

    /// What becomes of a client who is ready. Who is told again waits for nobody more.
    pub(crate) fn place<L: Ledgers, H: Steward<L>>(
        &mut self,
        alloc: Global,
        clients: &mut BTreeMap<u64, Client>,
        number: u64,
        steward: &H,
    ) -> Place
        ensures same { AreSame (seats_in clients.old) (seats_in clients.new) }
        ensures gathers { GathersNext (numbers_of self.old.ring.waiting)
            (numbers_of self.new.ring.waiting) number result }
        ensures placed { IsPlaced H.waits (seats_in clients.old number) result }
    {
        if self.ring.holds(number) {
            self.is_closed = true;
            return Place::Gathered;
        }
        let Some(client) = clients.get_mut(&number) else {
            return Place::Now;
        };
        let (weight, is_batch) = match next_kind::<L, H>(client, steward) {
            Kind::PutOff => return Place::Later,
            Kind::Other => return Place::Now,
            Kind::Batch(size) => (size, true),
            Kind::Page => (PAGE_BYTES, false),
            Kind::Long(size) => (size, false),
        };
        let tenant = next_tenant(alloc, client);
        self.gather(Waiting {
            number,
            tenant,
            weight,
            is_batch,
        })
    }

    // A message waits for its turn. If memory lacks for that, it has its turn now.
    fn gather(&mut self, waiting: Waiting) -> Place
        ensures gathers { GathersNext (numbers_of self.old.ring.waiting)
            (numbers_of self.new.ring.waiting) waiting.number result }
        ensures place { result ≡ Place.Later → ⊥ }
    {
        match self.ring.wait(waiting) {
            Ok(()) => Place::Gathered,
            Err(_) => Place::Now,
        }
    }

    /// Whether turns are to be given now. `most` is how many replies are asked for, and `has_more`
    /// says whether something else has happened already.
    pub(crate) fn is_due(&self, has_more: bool, most: u64) -> bool
        ensures { result ≡ false →
            (self.now.ring.waiting ≡ []) ⊎ (length self.now.ring.waiting < most) }
    {
        let count = self.ring.len();
        count > 0 && (self.is_closed || !has_more || count as u64 >= most)
    }

    // The most messages that are answered at once.
    fn most_turns(&self) -> usize
        ensures { result ≤ 32 }
    {
        if self.alone > 0 { 1 } else { MOST_TURNS }
    }

    /// Gives turns, as many as are answered at once.
    pub(crate) fn take_turns(&mut self) -> Chosen
        ensures { TakesTurns self.old.ring self.new.ring result }
    {
        let mut chosen = Chosen::new();
        let mut bytes: usize = 0;
        let most = self.most_turns();
        self.alone = self.alone.saturating_sub(1);
        self.is_closed = false;
        for taken in 0..most {
            let room = if taken == 0 {
                usize::MAX
            } else {
                MOST_BYTES.saturating_sub(bytes).min(MOST_ADDED)
            };
            let Some(waiting) = self.ring.turn(room) else {
                return chosen;
            };
            bytes = bytes.saturating_add(waiting.weight);
            chosen.add(waiting);
        }
        chosen
    }

    /// Removes a client that waits, and returns its number.
    pub(crate) fn let_go(&mut self) -> u64
        requires { self.old.ring.waiting ≢ [] }
        ensures first { numbers_of self.old.ring.waiting
            ≡ result ∷ numbers_of self.new.ring.waiting }
        ensures less { length self.new.ring.waiting < length self.old.ring.waiting }
    {
        self.ring.let_go()
    }

    /// The next clients are served alone.
    pub(crate) fn serve_alone(&mut self)
        ensures { self.new ≡ record self.old { alone = self.new.alone } }
    {
        self.alone = ALONE;
    }
}
