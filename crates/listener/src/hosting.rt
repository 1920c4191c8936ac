//! A service on this machine, and what its parts share.

use crate::bell::Bell;
use crate::events::Events;
use metered_disk::Meter;
use polling::Batch;
use reply_marks::Marks;
use sockets::{Counts, Operator};
use std::time::Duration;

/// What the sockets, the file and the admin socket of a service on this machine share. It reports to
/// standard error and counts. The service goes on where nobody reads that.
#[derive(Drop)]
pub struct Site<'a> {
    /// The machine.
    pub rt: &'a HostRuntime,
    /// What its sockets and its admin socket tell each other.
    pub bell: Bell,
    /// What the disk of its file has done.
    pub meter: Meter,
    /// The marks of the replies that go out.
    pub marks: Marks<'a>,
}

impl<'a> Site<'a> {
    /// A site whose service has done nothing yet.
    pub fn new(rt: &'a HostRuntime) -> Site<'a> {
        Site {
            rt,
            bell: Bell::new(),
            meter: Meter::new(),
            marks: Marks::new(rt),
        }
    }
}

impl Operator for Site<'_> {
    fn tell_short(&self) {
        let _ = self.rt.eprintln(format_args!(
            "no more clients for now: descriptors or memory are wanting"
        ));
    }

    fn tell_accepting(&self) {
        let _ = self.rt.eprintln(format_args!("clients are taken again"));
    }

    fn rings(&self) {
        self.bell.ring();
    }

    fn is_busy(&self) -> bool {
        self.bell.is_busy()
    }

    fn is_stopping(&self) -> bool {
        self.bell.is_stopping()
    }

    fn notes(&self, counts: &Counts) {
        self.bell.note(counts);
    }

    // The clock in a reply is marked before its first byte goes out, also if its client is gone.
    fn mark(&self, reply: &[u8]) {
        self.marks.note(reply);
    }

    fn replies(&self, reply: &[u8]) {
        let mut tally = self.bell.tally();
        tally.replied(reply);
        self.bell.set_tally(tally);
    }

    fn answered(&self, batch: Batch, reply: &[u8]) {
        let mut tally = self.bell.tally();
        tally.answered(batch, Events::told_in(reply));
        self.bell.set_tally(tally);
    }

    fn shared(&self, messages: u64) {
        let mut tally = self.bell.tally();
        tally.answered_together(messages);
        self.bell.set_tally(tally);
    }

    fn turned(&self, took: Duration) {
        let mut tally = self.bell.tally();
        tally.turned(took);
        self.bell.set_tally(tally);
    }
}
