//! Clients by a script of readiness, and a clock that goes with it.

ghost use Rattle.std.specs.Prelude.{⊤};

use polling::{Batch, Peers, Read, Told, Written};
use std::alloc::{AllocError, Global};
use std::cell::Cell;
use std::io;
use std::time::{Clock, Duration};

/// A clock that is set by hand, in seconds, and how many replies were written by it.
#[derive(Drop)]
pub struct Hand {
    seconds: Cell<u64>,
    replies: Cell<u64>,
}

impl Hand {
    pub fn new() -> Hand {
        Hand {
            seconds: Cell::new(0),
            replies: Cell::new(0),
        }
    }

    pub fn seconds(&self) -> u64 {
        self.seconds.get()
    }

    pub fn replies(&self) -> u64 {
        self.replies.get()
    }

    fn pass(&self, seconds: u64) {
        self.seconds.set(self.seconds.get().saturating_add(seconds));
    }

    fn reply(&self) {
        self.replies.set(self.replies.get().saturating_add(1));
    }
}

impl Clock for Hand {
    fn monotonic(&self) -> io::Result<Duration> {
        Ok(Duration::from_secs(self.seconds.get()))
    }

    fn since_1970(&self) -> io::Result<Duration> {
        self.monotonic()
    }
}

/// One client: what it still sends, and what it was written. It keeps its connection.
#[derive(Drop)]
struct Peer {
    sends: Vec<u8>,
    heard: Vec<u8>,
    is_open: bool,
}

/// Clients that are there from the first, each of which is ready in turn. So many seconds pass with
/// each turn.
#[derive(Drop)]
pub struct Scripted<'a> {
    peers: Vec<Peer>,
    alloc: Global,
    next: u64,
    clock: &'a Hand,
    seconds: u64,
}

impl<'a> Scripted<'a> {
    pub fn new(alloc: Global, clock: &'a Hand, seconds: u64) -> Scripted<'a> {
        Scripted {
            peers: Vec::new(alloc),
            alloc,
            next: 0,
            clock,
            seconds,
        }
    }

    /// A client more, which sends a message so many times.
    pub fn add(&mut self, message: &str, times: u64) -> Result<(), AllocError> {
        let mut sends = Vec::new(self.alloc);
        for _ in 0..times {
            sends.extend_from_slice(message.as_bytes())?;
        }
        self.peers.push(Peer {
            sends,
            heard: Vec::new(self.alloc),
            is_open: true,
        })?;
        Ok(())
    }

    /// What all clients were written, one after the other, each behind a bar.
    pub fn heard(&self) -> Result<Vec<u8>, AllocError> {
        let mut all = Vec::new(self.alloc);
        for peer in &self.peers {
            all.push(b'|')?;
            all.extend_from_slice(&peer.heard)?;
        }
        Ok(all)
    }

    fn peer(&mut self, number: u64) -> Option<&mut Peer> {
        match usize::try_from(number) {
            Ok(at) => self.peers.get_mut(at),
            Err(_) => None,
        }
    }
}

impl Peers for Scripted<'_> {
    ghost does = { λ _ _ _. ⊤ };

    fn told(&mut self, fresh: u64) -> Told {
        let count = self.peers.len() as u64;
        if fresh < count {
            return Told::Joined;
        }
        self.clock.pass(self.seconds);
        for _ in 0..count {
            let number = self.next;
            self.next = number.saturating_add(1) % count.max(1);
            if let Some(Peer { is_open: true, .. }) = self.peer(number) {
                return Told::Ready(number);
            }
        }
        Told::Nothing
    }

    // Who is told is served before the next one is.
    fn has_more(&self) -> bool {
        false
    }

    fn answered(&mut self, _client: u64, _batch: Option<Batch>, _reply: &[u8]) {}

    fn wants(&mut self, _client: u64, _bytes: u64) {}

    fn read(&mut self, client: u64, piece: &mut [u8]) -> Read {
        let most = piece.len();
        let Some(peer) = self.peer(client) else {
            return Read::Broken;
        };
        let count = most.min(peer.sends.len());
        if count == 0 {
            return Read::Waits;
        }
        piece[..count].copy_from_slice(&peer.sends[..count]);
        peer.sends.rotate_left(count);
        let left = peer.sends.len() - count;
        peer.sends.truncate(left);
        Read::Gave(count)
    }

    fn write(&mut self, client: u64, bytes: &[u8]) -> Written {
        let Some(peer) = self.peer(client) else {
            return Written::Broken;
        };
        match peer.heard.extend_from_slice(bytes) {
            Ok(()) => {
                self.clock.reply();
                Written::Took(bytes.len())
            }
            Err(_) => Written::Broken,
        }
    }

    fn again(&mut self, _client: u64) {}

    fn close(&mut self, client: u64) {
        if let Some(peer) = self.peer(client) {
            peer.is_open = false;
        }
    }
}
