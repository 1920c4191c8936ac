//! Firms that serve clients, each of whom has a turn.
ghost use Rattle.std.specs.Prelude.{⊤};

use super::{Always, Firms};
use crate::tests::frail::{Fate, Frail, Opens};
use crate::tests::turns::scripted::{Peer, Scripted};
use chain::InUse;
use parts::{Part, Rest};
use plain::Book;
use polling::{Seats, Steward, serve_ready, write_rest};
use service::Moments;
use std::alloc::Global;
use std::cell::Cell;
use std::test::Fail;

/// Cannot read what is left of statements.
#[derive(Drop)]
struct Blind;

impl Steward<InUse<Book>> for Blind {
    ghost renews = { λ given old new. ⊤ };

    fn is_settled(_ledgers: &InUse<Book>) {}

    fn attend<C: Moments>(&mut self, _ledgers: &mut InUse<Book>, _moments: &mut C) {}

    fn reads(_alloc: Global, _ledgers: &mut InUse<Book>, _rest: &Rest) -> Option<Part> {
        None
    }
}

/// Ledgers in memory do not fail. It puts off batches of more than so many bytes, so many times.
#[derive(Drop)]
struct PutsOff {
    most: usize,
    left: Cell<u64>,
}

impl Steward<InUse<Book>> for PutsOff {
    ghost renews = { λ given old new. ⊤ };

    // Nothing is known of these.
    ghost waits = { λ message. ⊤ };

    fn is_settled(_ledgers: &InUse<Book>) {}

    fn attend<C: Moments>(&mut self, _ledgers: &mut InUse<Book>, _moments: &mut C) {}

    fn reads(alloc: Global, ledgers: &mut InUse<Book>, rest: &Rest) -> Option<Part> {
        rest.part(alloc, ledgers, b"").ok()
    }

    fn puts_off(&self, message: &[u8]) -> bool {
        let left = self.left.get();
        if left == 0 || message.len() <= self.most {
            return false;
        }
        self.left.set(left - 1);
        true
    }
}

/// Puts off none.
fn never() -> PutsOff {
    PutsOff {
        most: 0,
        left: Cell::new(0),
    }
}

impl Firms {
    /// Serves clients until nothing more happens, or so many messages were replied to.
    pub(crate) fn serve_ready(&mut self, peers: &mut Scripted, most: u64) -> u64 {
        let mut seats = Seats::new(self.alloc);
        self.serve_seated(peers, &mut seats, &mut never(), most)
    }

    /// Serves clients until so many messages were replied to. Then another one comes, and what is
    /// left of the replies is written.
    pub(crate) fn serve_and_finish<'a>(
        &mut self,
        peers: &mut Scripted<'a>,
        most: u64,
        another: Peer<'a>,
    ) -> Result<u64, Fail> {
        let mut seats = Seats::new(self.alloc);
        let replies = self.serve_seated(peers, &mut seats, &mut never(), most);
        peers.peers.push(another)?;
        write_rest::<InUse<Book>, PutsOff, Always, Scripted<'a>>(
            self.alloc,
            peers,
            &mut seats,
            &mut self.ledgers,
        );
        Ok(replies)
    }

    /// Serves clients, none of whom hears more than the first part of a statement, until so many
    /// messages were replied to. Then what is left of the replies is written.
    pub(crate) fn serve_blind(&mut self, peers: &mut Scripted, most: u64) -> u64 {
        let mut seats = Seats::new(self.alloc);
        let mut piece = [0; 100];
        let replies = serve_ready(
            self.alloc,
            peers,
            &mut seats,
            &mut self.ledgers,
            &mut Blind,
            &mut Always(1000),
            &mut piece,
            most,
        );
        write_rest::<InUse<Book>, Blind, Always, Scripted>(
            self.alloc,
            peers,
            &mut seats,
            &mut self.ledgers,
        );
        replies
    }

    /// Serves clients over ledgers of which the first round has a fate. Says how many messages were
    /// replied to, and how many rounds were begun.
    pub(crate) fn serve_frail(self, peers: &mut Scripted, fate: Fate) -> (u64, u64) {
        let Firms { alloc, ledgers } = self;
        let mut seats = Seats::new(alloc);
        let mut frail = Frail::new(ledgers, Some(fate));
        let mut piece = [0; 100];
        let replies = serve_ready(
            alloc,
            peers,
            &mut seats,
            &mut frail,
            &mut Opens,
            &mut Always(1000),
            &mut piece,
            99,
        );
        (replies, frail.rounds)
    }

    /// Serves clients while batches of more than so many bytes are put off, so many times. Says how
    /// many messages were replied to.
    pub(crate) fn serve_putting_off(
        &mut self,
        peers: &mut Scripted,
        most: usize,
        times: u64,
    ) -> u64 {
        let mut seats = Seats::new(self.alloc);
        let mut steward = PutsOff {
            most,
            left: Cell::new(times),
        };
        self.serve_seated(peers, &mut seats, &mut steward, 99)
    }

    fn serve_seated(
        &mut self,
        peers: &mut Scripted,
        seats: &mut Seats,
        steward: &mut PutsOff,
        most: u64,
    ) -> u64 {
        let mut piece = [0; 100];
        serve_ready(
            self.alloc,
            peers,
            seats,
            &mut self.ledgers,
            steward,
            &mut Always(1000),
            &mut piece,
            most,
        )
    }
}
