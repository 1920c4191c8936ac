//! A service of this machine, and its clients, in one thread.
use polling::{Batch, Peers, Read, Told};
use sockets::{Counts, Limits, Operator, Sockets};
use std::cell::Cell;
use std::io;
use std::net::{Ipv4Addr, SocketAddr, TcpStream};
use std::test::Fail;
use std::time::{Clock, Duration};

/// A clock that goes on by so many milliseconds each time that it is asked.
#[derive(Drop)]
pub struct Ticking {
    milliseconds: Cell<u64>,
    step: u64,
}

impl Ticking {
    pub fn new(step: u64) -> Ticking {
        Ticking {
            milliseconds: Cell::new(0),
            step,
        }
    }

    /// It goes on by so many milliseconds.
    pub fn pass(&self, milliseconds: u64) {
        self.milliseconds
            .set(self.milliseconds.get().saturating_add(milliseconds));
    }
}

impl Clock for Ticking {
    fn monotonic(&self) -> io::Result<Duration> {
        self.pass(self.step);
        Ok(Duration::from_millis(self.milliseconds.get()))
    }

    fn since_1970(&self) -> io::Result<Duration> {
        self.monotonic()
    }
}

/// What an operator was told, and what it says itself.
#[derive(Drop)]
pub struct Notes {
    /// How often that nobody is accepted.
    pub short: Cell<u64>,
    /// How often that all who waited are accepted again.
    pub accepting: Cell<u64>,
    /// How often that something may have come at what is watched.
    pub rung: Cell<u64>,
    /// How many clients there are, and were.
    pub counts: Cell<Counts>,
    /// How many replies were begun.
    replies: Cell<u64>,
    /// How many messages were answered in rounds.
    shared: Cell<u64>,
    /// How many batches of accounts and of transfers were answered.
    pub batches: Cell<(u64, u64)>,
    /// How many bytes of replies there were to mark.
    pub marked: Cell<u64>,
    pub longest_turn: Cell<Duration>,
    /// Whether a call of its own is being read.
    pub is_busy: Cell<bool>,
    /// Whether no more is to be begun.
    pub is_stopping: Cell<bool>,
}

impl Notes {
    pub fn new() -> Notes {
        Notes {
            short: Cell::new(0),
            accepting: Cell::new(0),
            rung: Cell::new(0),
            counts: Cell::new(Counts {
                connected: 0,
                most_connected: 0,
                accepted: 0,
                late: 0,
            }),
            replies: Cell::new(0),
            shared: Cell::new(0),
            batches: Cell::new((0, 0)),
            marked: Cell::new(0),
            longest_turn: Cell::new(Duration::ZERO),
            is_busy: Cell::new(false),
            is_stopping: Cell::new(false),
        }
    }

    /// How many replies were begun, and how many messages answered in rounds.
    pub fn answered(&self) -> (u64, u64) {
        (self.replies.get(), self.shared.get())
    }
}

impl Operator for Notes {
    fn tell_short(&self) {
        self.short.set(self.short.get().saturating_add(1));
    }

    fn tell_accepting(&self) {
        self.accepting.set(self.accepting.get().saturating_add(1));
    }

    fn rings(&self) {
        self.rung.set(self.rung.get().saturating_add(1));
    }

    fn is_busy(&self) -> bool {
        self.is_busy.get()
    }

    fn is_stopping(&self) -> bool {
        self.is_stopping.get()
    }

    fn notes(&self, counts: &Counts) {
        self.counts.set(*counts);
    }

    fn replies(&self, _reply: &[u8]) {
        self.replies.set(self.replies.get().saturating_add(1));
    }

    fn shared(&self, messages: u64) {
        self.shared.set(self.shared.get().saturating_add(messages));
    }

    fn mark(&self, reply: &[u8]) {
        let bytes = reply.len() as u64;
        self.marked.set(self.marked.get().saturating_add(bytes));
    }

    fn answered(&self, batch: Batch, _reply: &[u8]) {
        let (accounts, transfers) = self.batches.get();
        self.batches.set(match batch {
            Batch::Accounts => (accounts.saturating_add(1), transfers),
            Batch::Transfers => (accounts, transfers.saturating_add(1)),
        });
    }

    fn turned(&self, took: Duration) {
        self.longest_turn.set(self.longest_turn.get().max(took));
    }
}

/// What is allowed: so many clients, so many bytes of long messages, and so many milliseconds
/// silent, in a message and in a reply.
#[derive(Clone, Copy)]
pub struct Allowed(pub usize, pub usize, pub u64, pub u64, pub u64);

/// Those who are connected, and the clients at the other end.
pub struct Scene<'a> {
    pub sockets: Sockets<'a, Ticking, Notes>,
    pub clients: Vec<TcpStream>,
    pub piece: Vec<u8>,
}

// It is written out, so that who lets a scene go does not prove again how each part is dropped.
impl Drop for Scene<'_> {
    fn drop(self) {
        let Scene {
            sockets: _,
            clients: _,
            piece: _,
        } = self;
    }
}

impl<'a> Scene<'a> {
    pub fn new(
        rt: &HostRuntime,
        clock: &'a Ticking,
        notes: &'a Notes,
        allowed: Allowed,
    ) -> Result<Self, Fail> {
        let Allowed(clients, room, idle, message, reply) = allowed;
        let limits = Limits {
            clients,
            room,
            idle: Duration::from_millis(idle),
            message: Duration::from_millis(message),
            reply: Duration::from_millis(reply),
        };
        let here = SocketAddr::from((Ipv4Addr::LOCALHOST, 0));
        Ok(Scene {
            sockets: Sockets::listen(rt, clock, notes, here, limits)?,
            clients: Vec::new(rt.alloc()),
            piece: Vec::from_elem(rt.alloc(), 0, 65_536)?,
        })
    }

    /// What is told next, where anything is in so many waits.
    pub fn told(&mut self, fresh: u64, waits: u64) -> Told {
        for _ in 0..waits {
            let told = self.sockets.told(fresh);
            if told != Told::Nothing {
                return told;
            }
        }
        Told::Nothing
    }

    /// How many bytes are read of a client until none is given, and what is given then.
    pub fn read_all(&mut self, client: u64) -> (usize, Read) {
        let mut all = 0usize;
        for _ in 0..1000 {
            match self.sockets.read(client, &mut self.piece) {
                Read::Gave(count) => all = all.saturating_add(count),
                end => return (all, end),
            }
        }
        (all, Read::Broken)
    }
}
