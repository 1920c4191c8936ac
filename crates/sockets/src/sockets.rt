//! Clients over sockets.
use crate::closing::Closing;
use crate::door::Door;
use crate::guests::Guests;
use crate::limits::Limits;
use crate::operator::Operator;
use crate::own_time::OwnTime;
use crate::shortage::Shortage;
use crate::tokens::DOOR;
use crate::watcher::Watcher;
use mio::net::TcpListener;
use mio::{Events, Poll};
use std::alloc::{AllocGlobal, Global};
use std::io;
use std::net::{Net, SocketAddr};
use std::time::{Clock, Duration};

/// How many events are taken at once.
pub(crate) const EVENTS: usize = 1_024;

/// Those who are connected to a socket of the machine. Who takes too long, by a clock, is let go.
/// Where descriptors or memory are wanting nobody is accepted for a moment, which is told once, and
/// once when all who waited are accepted again.
///
/// Once the operator asks to stop, no further connection is accepted, and no client is late. For a
/// second at most, `told` names each client that had sent something by then, until nothing is left
/// to be done for it. It also names each that has not taken all of a reply. After that second it
/// names each client that waits for its turn as late, and then returns `Nothing` at once, for ever.
#[derive(Drop)]
pub struct Sockets<'a, K: Clock, O: Operator> {
    pub(crate) clock: &'a K,
    pub(crate) operator: &'a O,
    pub(crate) shortage: Shortage,
    pub(crate) closing: Closing,
    pub(crate) time: OwnTime,
    pub(crate) poll: Poll,
    pub(crate) events: Events<Global>,
    pub(crate) door: Door,
    pub(crate) guests: Guests,
    // How often it is looked yet who else is ready before it is waited.
    pub(crate) looks: u8,
    // Whether all time is over, and clients that wait for their turns are being let go.
    pub(crate) is_letting_go: bool,
}

impl<'a, K: Clock, O: Operator> Sockets<'a, K, O> {
    /// Listens at an address.
    pub fn listen<R: Net + AllocGlobal>(
        rt: &R,
        clock: &'a K,
        operator: &'a O,
        address: SocketAddr,
        limits: Limits,
    ) -> io::Result<Self> {
        let poll = Poll::new(rt)?;
        let mut door = Door::new(TcpListener::bind(rt, address)?);
        door.register(poll.registry(), DOOR)?;
        Ok(Sockets {
            clock,
            operator,
            shortage: Shortage::new(),
            closing: Closing::new(),
            time: OwnTime::new(clock.monotonic().unwrap_or(Duration::ZERO)),
            poll,
            events: Events::with_capacity(rt.alloc(), EVENTS)?,
            door,
            guests: Guests::new(rt.alloc(), limits)?,
            looks: 0,
            is_letting_go: false,
        })
    }

    /// What has a source of the operator's own watched.
    pub fn watcher(&self) -> io::Result<Watcher> {
        Watcher::new(self.poll.registry())
    }

    /// Where it listens.
    pub fn local_addr(&self) -> io::Result<SocketAddr> {
        self.door.local_addr()
    }
}
