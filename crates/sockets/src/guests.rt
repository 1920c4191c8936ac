//! All who are connected, and the queue of those who are ready.
use crate::counts::Counts;
use crate::limits::Limits;
use crate::lingering::Lingering;
use crate::peer::Peer;
use crate::room::{Asked, Room};
use crate::stages::{Stage, Stages};
use mio::net::TcpStream;
use std::alloc::{AllocError, Global};
use std::collections::{BTreeMap, VecDeque};
use std::time::Duration;

/// All who are connected.
#[derive(Drop)]
pub(crate) struct Guests {
    pub(crate) limits: Limits,
    pub(crate) peers: BTreeMap<u64, Peer>,
    pub(crate) stages: Stages,
    pub(crate) room: Room,
    pub(crate) lingering: Lingering,
    pub(crate) counts: Counts,
    /// Those who are ready, each once.
    queue: VecDeque<u64>,
    /// Clients whose connections were reset, until the loop knows it.
    reset: VecDeque<u64>,
    /// How many of them stood there when it was last waited.
    left: usize,
    /// Whether all that had happened was seen when it was last waited. Else somebody may be ready
    /// who is not in the queue, and nobody is judged.
    has_seen_all: bool,
    /// Whether it is still to be looked for those who have had their time.
    is_judging: bool,
    /// Whether no more is to be begun. What comes then is not looked at.
    is_closing: bool,
}

impl Guests {
    pub(crate) fn new(alloc: Global, limits: Limits) -> Result<Guests, AllocError> {
        Ok(Guests {
            limits,
            peers: BTreeMap::new(alloc),
            stages: Stages::new(alloc),
            room: Room::new(alloc, limits.room),
            lingering: Lingering::new(alloc)?,
            counts: Counts::new(),
            queue: VecDeque::new(alloc),
            reset: VecDeque::new(alloc),
            left: 0,
            has_seen_all: false,
            is_judging: false,
            is_closing: false,
        })
    }

    /// Whether there are as many as there may be.
    pub(crate) fn are_many(&self) -> bool {
        self.peers.len() >= self.limits.clients
    }

    pub(crate) fn is_anybody_ready(&self) -> bool {
        !self.queue.is_empty()
    }

    // Who cannot be queued for want of memory is let go when it has had its time.
    fn put_in_queue(&mut self, number: u64) {
        let _ = self.queue.push_back(number);
    }

    /// Takes in a new client.
    pub(crate) fn join(
        &mut self,
        number: u64,
        stream: TcpStream,
        now: Duration,
    ) -> Result<(), AllocError> {
        let all = self.peers.len().saturating_add(self.lingering.len());
        self.queue.reserve(all.saturating_add(1))?;
        self.reset.reserve(all.saturating_add(1))?;
        let stage = Stage::idle(&self.limits, now);
        self.stages.enter(number, stage)?;
        match self.peers.insert(number, Peer::new(stream, stage)) {
            Ok(_) => {
                self.counts.joined();
                self.again(number);
                Ok(())
            }
            Err(_) => {
                self.stages.leave(number, stage);
                Err(AllocError)
            }
        }
    }

    /// Something has come of a client, or may be taken by it, or its input ends. Where all is
    /// closing only those are woken who have not taken all of a reply, and nobody to be read.
    pub(crate) fn wake(&mut self, number: u64, is_ending: bool) {
        if let Some(peer) = self.peers.get_mut(&number) {
            if self.is_closing && !peer.is_written_to() {
                return;
            }
            peer.can_read = peer.can_read || !self.is_closing;
            peer.is_ending = peer.is_ending || is_ending;
        }
        self.again(number);
    }

    /// A connection was reset. So nothing more is done for its client, whatever it has sent.
    pub(crate) fn reset(&mut self, number: u64) {
        match self.peers.get_mut(&number) {
            Some(peer) if !peer.is_over && !self.is_closing => {
                peer.is_over = true;
                self.stages.leave(number, peer.stage);
                let _ = self.reset.push_back(number);
            }
            _ => self.wake(number, true),
        }
    }

    /// A client that still waits for its turn, if any. It goes, since all time is over.
    pub(crate) fn let_waiting_go(&mut self) -> Option<u64> {
        for (number, peer) in self.peers.iter_mut() {
            if peer.is_told && !peer.is_over {
                peer.is_over = true;
                self.stages.leave(*number, peer.stage);
                return Some(*number);
            }
        }
        None
    }

    /// A client whose connection was reset, which the loop does not know yet.
    pub(crate) fn next_reset(&mut self) -> Option<u64> {
        self.reset.pop_front()
    }

    /// Whether there is such a client.
    pub(crate) fn is_anybody_reset(&self) -> bool {
        !self.reset.is_empty()
    }

    /// A client stands in the queue, behind all who do.
    pub(crate) fn again(&mut self, number: u64) {
        let is_new = match self.peers.get_mut(&number) {
            Some(peer) => {
                let is_new = !peer.is_queued;
                peer.is_queued = true;
                peer.is_told = false;
                is_new
            }
            None => self.lingering.wake(number),
        };
        if is_new {
            self.put_in_queue(number);
        }
    }

    /// All who are ready now have their turn once, and those are told who have had their time.
    pub(crate) fn begin_turns(&mut self, has_seen_all: bool) {
        self.left = self.queue.len();
        self.has_seen_all = has_seen_all;
        self.is_judging = has_seen_all;
    }

    /// No more is to be begun: what comes from now on is not looked at.
    pub(crate) fn begin_closing(&mut self) {
        self.is_closing = true;
    }

    /// Whether somebody has not taken all of a reply.
    pub(crate) fn is_anybody_written_to(&self) -> bool {
        self.peers.values().any(|peer| peer.is_written_to())
    }

    /// Whether what is written to a client next is the beginning of a reply.
    pub(crate) fn begins_reply(&self, number: u64) -> bool {
        match self.peers.get(&number) {
            Some(peer) => !peer.is_over && !matches!(peer.stage, Stage::Reply(_)),
            None => false,
        }
    }

    /// The next whose turn it is, of all who are ready, one turn after the other.
    pub(crate) fn next_at_end(&mut self) -> Option<u64> {
        if let Some(number) = self.next_ready() {
            return Some(number);
        }
        self.begin_turns(false);
        self.next_ready()
    }

    /// Whether somebody's turn may be left.
    pub(crate) fn has_turns(&self) -> bool {
        self.left > 0
    }

    /// The next whose turn it is.
    pub(crate) fn next_ready(&mut self) -> Option<u64> {
        for _ in 0..self.left {
            self.left = self.left.saturating_sub(1);
            let number = match self.queue.pop_front() {
                Some(number) => number,
                None => return None,
            };
            if self.takes_turn(number) {
                return Some(number);
            }
        }
        None
    }

    // Whether somebody who is served stood in the queue.
    fn takes_turn(&mut self, number: u64) -> bool {
        match self.peers.get_mut(&number) {
            Some(peer) => {
                peer.is_queued = false;
                peer.is_told = true;
                true
            }
            None => {
                if self.lingering.drain(number) {
                    self.put_in_queue(number);
                }
                false
            }
        }
    }

    /// Who is not ready and has had its time, if anybody.
    pub(crate) fn late(&mut self, now: Duration) -> Option<u64> {
        if !self.is_judging {
            return None;
        }
        if let Some(number) = self.stages.busy.due(now) {
            if self.is_let_go(number) {
                return Some(number);
            }
        }
        if let Some(number) = self.stages.idle.due(now) {
            if self.is_let_go(number) {
                return Some(number);
            }
        }
        self.is_judging = false;
        None
    }

    /// Who is not ready and has been silent for longest, if anybody.
    pub(crate) fn longest_idle(&mut self) -> Option<u64> {
        if !self.has_seen_all {
            return None;
        }
        match self.stages.idle.first() {
            Some((_, number)) => {
                if self.is_let_go(number) {
                    Some(number)
                } else {
                    None
                }
            }
            None => None,
        }
    }

    // Whether a client is not ready. Then nothing more is waited for of it.
    fn is_let_go(&mut self, number: u64) -> bool {
        match self.peers.get_mut(&number) {
            Some(peer) => {
                if peer.is_queued || peer.is_told {
                    return false;
                }
                peer.is_over = true;
                peer.is_late = true;
                self.stages.leave(number, peer.stage);
                true
            }
            None => false,
        }
    }

    /// A client goes.
    pub(crate) fn close(&mut self, number: u64, now: Duration) {
        let Some(peer) = self.peers.remove(&number) else {
            return;
        };
        self.counts.left(peer.is_late);
        self.stages.leave(number, peer.stage);
        self.give_back(number, peer.stage, peer.reading.room(), now);
        if peer.is_over {
            return;
        }
        let most = self.limits.clients;
        let is_queued = peer.is_queued;
        if self
            .lingering
            .begin(number, peer.stream, is_queued, now, most)
        {
            self.put_in_queue(number);
        }
    }

    // A client that goes gives its room back, or waits for none any more.
    fn give_back(&mut self, number: u64, stage: Stage, room: usize, now: Duration) {
        if stage == Stage::Room {
            self.room.leave(number);
        }
        self.room.give_back(room);
        self.admit(now);
    }

    /// Whoever waits for room has it from now on, one after the other, as far as there is room.
    pub(crate) fn admit(&mut self, now: Duration) {
        for _ in 0..u64::MAX {
            match self.room.admit() {
                Some(asked) => self.let_in(asked, now),
                None => return,
            }
        }
    }

    // A client has the room that it waited for.
    fn let_in(&mut self, asked: Asked, now: Duration) {
        match self.peers.get_mut(&asked.number) {
            Some(peer) => {
                peer.reading.has_room(asked.bytes);
                let stage = Stage::with_room(&self.limits, now);
                let _ = peer.change(&mut self.stages, asked.number, stage);
            }
            None => self.room.give_back(asked.bytes),
        }
        self.again(asked.number);
    }

    /// A client is to be read whose next message has so many bytes, or 0 where that is not known. A
    /// long message takes room, or waits for it. Where memory is wanting for that the client goes.
    pub(crate) fn wants(&mut self, number: u64, bytes: u64) {
        let Some(peer) = self.peers.get_mut(&number) else {
            return;
        };
        if peer.is_over || peer.stage == Stage::Room {
            return;
        }
        let bytes = peer.reading.lacks(bytes as usize);
        if bytes == 0 {
            return;
        }
        if let Some(room) = self.room.take(bytes) {
            peer.reading.has_room(room);
            return;
        }
        if self.room.wait(Asked { number, bytes }).is_ok() {
            let _ = peer.change(&mut self.stages, number, Stage::Room);
        } else {
            peer.is_over = true;
        }
    }
}
