//! Connections at an address of this machine.
ghost use Rattle.std.specs.Prelude.{◌≡◌, MatchResult, ⊤};
ghost use Rattle.command_line.specs.Values.{text_in};
ghost use Rattle.listener.specs.Listening.{ReadsListening};

use crate::hosting::Site;
use command_texts::{Fault, address};
use polling::{Batch, Peers, Read, Told, Written};
use sockets::{Limits, Sockets, Watcher};
use std::net::{IpAddr, Ipv4Addr, SocketAddr};

/// The connections at an address.
#[derive(Drop)]
pub struct Listening<'a> {
    /// The address that was asked for.
    pub asked: SocketAddr,
    sockets: Sockets<'a, HostRuntime, Site<'a>>,
}

/// The address that a word spells; 127.0.0.1 without a word.
pub fn asked_address(word: Option<&str>) -> Result<IpAddr, Fault>
    ensures { ReadsListening (text_in word.entry) result }
{
    match word {
        Some(text) => address(text),
        None => Ok(IpAddr::V4(Ipv4Addr::LOCALHOST)),
    }
}

impl<'a> Listening<'a> {
    /// Listens at an address.
    pub fn at(site: &'a Site<'a>, asked: SocketAddr, limits: Limits) -> Result<Listening<'a>, Fault>
        ensures { MatchResult result (λ listening. listening.asked ≡ asked)
            (λ fault. fault ≡ Fault.Socket) }
    {
        match Sockets::listen(site.rt, site.rt, site, asked, limits) {
            Ok(sockets) => Ok(Listening { asked, sockets }),
            Err(_) => Err(Fault::Socket),
        }
    }

    /// Where it listens, as the system has it, which chooses a port where 0 was asked for.
    pub fn address(&self) -> SocketAddr {
        self.sockets.local_addr().unwrap_or(self.asked)
    }

    /// Watches further sources of events beside the connections, if the system allows it.
    pub fn watcher(&self) -> Option<Watcher> {
        self.sockets.watcher().ok()
    }
}

impl Peers for Listening<'_> {
    // Nothing is known of what a client does.
    ghost does = { λ _ _ _. ⊤ };

    fn told(&mut self, fresh: u64) -> Told {
        self.sockets.told(fresh)
    }

    fn told_at_once(&mut self, fresh: u64) -> Told {
        self.sockets.told_at_once(fresh)
    }

    fn has_more(&self) -> bool {
        self.sockets.has_more()
    }

    fn shared(&self, messages: u64) {
        self.sockets.shared(messages);
    }

    fn answered(&mut self, client: u64, batch: Option<Batch>, reply: &[u8]) {
        self.sockets.answered(client, batch, reply);
    }

    fn wants(&mut self, client: u64, bytes: u64) {
        self.sockets.wants(client, bytes);
    }

    fn read(&mut self, client: u64, piece: &mut [u8]) -> Read {
        self.sockets.read(client, piece)
    }

    fn write(&mut self, client: u64, bytes: &[u8]) -> Written {
        self.sockets.write(client, bytes)
    }

    fn again(&mut self, client: u64) {
        self.sockets.again(client);
    }

    fn close(&mut self, client: u64) {
        self.sockets.close(client);
    }
}
