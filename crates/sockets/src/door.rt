//! Where new clients come in.
use mio::event::Source;
use mio::net::{TcpListener, TcpStream};
use mio::{Interest, Registry, Token};
use std::io::{self, ErrorKind};
use std::net::SocketAddr;
use std::time::Duration;

/// Of whom no more are accepted in a row.
const MOST: usize = 64;

/// Where descriptors or memory are wanting, nobody is accepted for so many milliseconds.
const PAUSE: u64 = 100;

/// A listening socket, and who was accepted last.
#[derive(Drop)]
pub(crate) struct Door {
    listener: TcpListener,
    /// Whether somebody may wait to be accepted.
    is_knocked: bool,
    /// How many more are accepted before those who are ready have their turn.
    left: usize,
    /// Who was accepted, and has not joined.
    newcomer: Option<TcpStream>,
    /// Until when nobody is accepted.
    closed_until: Option<Duration>,
}

impl Door {
    pub(crate) fn new(listener: TcpListener) -> Door {
        Door {
            listener,
            is_knocked: true,
            left: 0,
            newcomer: None,
            closed_until: None,
        }
    }

    pub(crate) fn register(&mut self, registry: &Registry, token: Token) -> io::Result<()> {
        registry.register(&mut self.listener, token, Interest::READABLE)
    }

    pub(crate) fn local_addr(&self) -> io::Result<SocketAddr> {
        self.listener.local_addr()
    }

    /// Somebody may wait to be accepted.
    pub(crate) fn knock(&mut self) {
        self.is_knocked = true;
    }

    /// Some may be accepted, and a pause is over if it is.
    pub(crate) fn begin_turns(&mut self, now: Duration) {
        self.left = MOST;
        if let Some(until) = self.closed_until {
            if until <= now {
                self.closed_until = None;
            }
        }
    }

    /// Whether nobody is accepted, since descriptors or memory are wanting.
    pub(crate) fn is_closed(&self) -> bool {
        self.closed_until.is_some()
    }

    /// Whether somebody may wait to be accepted.
    pub(crate) fn is_knocked(&self) -> bool {
        self.is_knocked
    }

    pub(crate) fn closed_until(&self) -> Option<Duration> {
        self.closed_until
    }

    /// Whether somebody may be accepted without waiting.
    pub(crate) fn is_open(&self) -> bool {
        self.is_knocked && self.newcomer.is_none() && self.closed_until.is_none()
    }

    /// Nobody is accepted for a moment.
    pub(crate) fn pause(&mut self, now: Duration) {
        self.closed_until = Some(now.saturating_add(Duration::from_millis(PAUSE)));
    }

    /// Whether somebody was accepted and has not joined. If nobody was, the next one is.
    pub(crate) fn is_anybody_there(&mut self, now: Duration) -> bool {
        if self.newcomer.is_some() {
            return true;
        }
        for _ in 0..self.left {
            if !self.is_open() {
                break;
            }
            self.left = self.left.saturating_sub(1);
            self.accept(now);
        }
        self.newcomer.is_some()
    }

    // Accepts one, if there is one that has not gone.
    fn accept(&mut self, now: Duration) {
        match self.listener.accept() {
            Ok((stream, _)) => self.newcomer = Some(stream),
            Err(e) => match e.kind() {
                ErrorKind::WouldBlock => self.is_knocked = false,
                ErrorKind::Interrupted
                | ErrorKind::ConnectionAborted
                | ErrorKind::ConnectionReset
                | ErrorKind::TimedOut
                | ErrorKind::NetworkDown
                | ErrorKind::HostUnreachable
                | ErrorKind::NetworkUnreachable => {}
                _ => self.pause(now),
            },
        }
    }

    /// Whoever was accepted goes in.
    pub(crate) fn take(&mut self) -> Option<TcpStream> {
        self.newcomer.take()
    }
}
