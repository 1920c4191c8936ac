//! Clients by a script of readiness.

ghost use Rattle.std.specs.Prelude.{⊤};

use polling::{Batch, Peers, Read, Told, Written};
use std::alloc::Global;
use std::cell::Cell;

/// One client: what it still sends, and what it was written.
#[derive(Drop)]
pub(crate) struct Peer<'a> {
    sends: &'a [u8],
    pub(crate) heard: Vec<u8>,
    /// The replies that were handed over, one after the other; of a statement its first part.
    pub(crate) handed: Vec<u8>,
    /// Whether it was to be written more than was handed over by then.
    pub(crate) is_ahead: bool,
    /// Whether it was not let go.
    pub(crate) is_open: bool,
    /// Whether its next reading or writing would wait.
    waits: bool,
    never_waits: bool,
    /// How many bytes more it takes before it breaks.
    takes: usize,
    /// How long its messages were told to be before it was read, each length once in a row.
    pub(crate) wanted: Vec<u64>,
    /// Behind how many things that were told it was first written to.
    pub(crate) written_at: Option<u64>,
    /// Behind how many it took something, each time.
    pub(crate) taken_at: Vec<u64>,
}

impl<'a> Peer<'a> {
    /// A client that sends this, and breaks behind so many bytes that it was written.
    pub(crate) fn new(alloc: Global, sends: &'a [u8], takes: usize) -> Peer<'a> {
        Peer {
            sends,
            heard: Vec::new(alloc),
            handed: Vec::new(alloc),
            is_ahead: false,
            is_open: true,
            waits: false,
            never_waits: false,
            takes,
            wanted: Vec::new(alloc),
            written_at: None,
            taken_at: Vec::new(alloc),
        }
    }

    /// It never has to wait.
    pub(crate) fn at_once(mut self) -> Peer<'a> {
        self.never_waits = true;
        self
    }

    /// Every other time it waits.
    fn has_to_wait(&mut self) -> bool {
        if self.never_waits {
            return false;
        }
        self.waits = !self.waits;
        self.waits
    }
}

/// Clients that join one after the other, and of whom each is ready in turn.
#[derive(Drop)]
pub(crate) struct Scripted<'a> {
    pub(crate) peers: Vec<Peer<'a>>,
    next: u64,
    /// How many bytes are read or taken at once.
    piece: usize,
    /// Who is told to have had its time, once all have joined and so much was told.
    late: Option<u64>,
    late_at: u64,
    /// How many things were told.
    told: u64,
    /// How many messages were answered in rounds.
    pub(crate) shared: Cell<u64>,
    /// How many batches of accounts and of transfers were answered, and how long the replies are.
    pub(crate) batches: Cell<(u64, u64, usize)>,
}

impl<'a> Scripted<'a> {
    pub(crate) fn new(peers: Vec<Peer<'a>>, piece: usize) -> Scripted<'a> {
        Scripted {
            peers,
            next: 0,
            piece,
            late: None,
            late_at: 0,
            told: 0,
            shared: Cell::new(0),
            batches: Cell::new((0, 0, 0)),
        }
    }

    /// This client has had its time when so much was told.
    pub(crate) fn is_late_at(&mut self, number: u64, told: u64) {
        self.late = Some(number);
        self.late_at = told;
    }

    /// The client with a number.
    pub(crate) fn peer(&self, number: usize) -> Option<&Peer<'a>> {
        self.peers.get(number)
    }

    fn peer_mut(&mut self, number: u64) -> Option<&mut Peer<'a>> {
        let Ok(at) = usize::try_from(number) else {
            return None;
        };
        self.peers.get_mut(at)
    }

    /// Whether a client was written this and nothing more, and was let go, or not.
    pub(crate) fn has_heard(&self, number: usize, text: &[u8], is_open: bool) -> bool {
        match self.peer(number) {
            Some(peer) => peer.heard.as_slice() == text && peer.is_open == is_open,
            None => false,
        }
    }
}

impl Peers for Scripted<'_> {
    ghost does = { λ _ _ _. ⊤ };

    fn told(&mut self, fresh: u64) -> Told {
        let count = self.peers.len() as u64;
        self.told = self.told.saturating_add(1);
        if fresh < count {
            return Told::Joined;
        }
        if self.told > self.late_at {
            if let Some(number) = self.late {
                self.late = None;
                return Told::Late(number);
            }
        }
        for _ in 0..count {
            let number = self.next;
            self.next = number.saturating_add(1) % count.max(1);
            if let Some(Peer { is_open: true, .. }) = self.peer_mut(number) {
                return Told::Ready(number);
            }
        }
        Told::Nothing
    }

    // In each turn round all are told without waiting.
    fn has_more(&self) -> bool {
        self.next != 0
    }

    fn shared(&self, messages: u64) {
        self.shared.set(self.shared.get().saturating_add(messages));
    }

    fn answered(&mut self, client: u64, batch: Option<Batch>, reply: &[u8]) {
        if let Some(peer) = self.peer_mut(client) {
            let _ = peer.handed.extend_from_slice(reply);
        }
        let Some(batch) = batch else {
            return;
        };
        let (accounts, transfers, bytes) = self.batches.get();
        let bytes = bytes.saturating_add(reply.len());
        self.batches.set(match batch {
            Batch::Accounts => (accounts.saturating_add(1), transfers, bytes),
            Batch::Transfers => (accounts, transfers.saturating_add(1), bytes),
        });
    }

    fn wants(&mut self, client: u64, bytes: u64) {
        if let Some(peer) = self.peer_mut(client) {
            if peer.wanted.last() != Some(&bytes) {
                let _ = peer.wanted.push(bytes);
            }
        }
    }

    fn read(&mut self, client: u64, piece: &mut [u8]) -> Read {
        let most = self.piece.min(piece.len());
        let Some(peer) = self.peer_mut(client) else {
            return Read::Broken;
        };
        if peer.has_to_wait() {
            return Read::Waits;
        }
        if peer.sends.is_empty() {
            return Read::Ended;
        }
        let count = most.min(peer.sends.len());
        let (front, rest) = peer.sends.split_at(count);
        piece[..count].copy_from_slice(front);
        peer.sends = rest;
        Read::Gave(count)
    }

    fn write(&mut self, client: u64, bytes: &[u8]) -> Written {
        let most = self.piece.min(bytes.len());
        let told = self.told;
        let Some(peer) = self.peer_mut(client) else {
            return Written::Broken;
        };
        if peer.heard.len().saturating_add(bytes.len()) > peer.handed.len() {
            peer.is_ahead = true;
        }
        if peer.written_at.is_none() {
            peer.written_at = Some(told);
        }
        if peer.has_to_wait() {
            return Written::Waits;
        }
        let count = most.min(peer.takes);
        if count == 0 {
            return Written::Broken;
        }
        if peer.heard.extend_from_slice(&bytes[..count]).is_err() {
            return Written::Broken;
        }
        if peer.taken_at.push(told).is_err() {
            return Written::Broken;
        }
        peer.takes -= count;
        Written::Took(count)
    }

    fn again(&mut self, _client: u64) {}

    fn close(&mut self, client: u64) {
        if let Some(peer) = self.peer_mut(client) {
            peer.is_open = false;
        }
    }
}
