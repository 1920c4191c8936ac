//! What the sockets of a service and its admin socket tell each other.

use crate::tally::Tally;
use sockets::Counts;
use std::cell::Cell;

/// Whether a call may wait at the admin socket, and whether that is busy. Whether holds are being
/// released, and whether the service is to end. How many clients there are, and what was done for them.
#[derive(Drop)]
pub struct Bell {
    has_rung: Cell<bool>,
    is_busy: Cell<bool>,
    is_settling: Cell<bool>,
    is_stopping: Cell<bool>,
    counts: Cell<Counts>,
    tally: Cell<Tally>,
}

impl Bell {
    /// One of a service that has done nothing. A call may wait.
    pub(crate) fn new() -> Bell {
        Bell {
            has_rung: Cell::new(true),
            is_busy: Cell::new(false),
            is_settling: Cell::new(false),
            is_stopping: Cell::new(false),
            counts: Cell::new(Counts::new()),
            tally: Cell::new(Tally::new()),
        }
    }

    /// Notes that a call may wait.
    pub fn ring(&self) {
        self.has_rung.set(true);
    }

    /// Whether the admin socket needs a look: a call may have come since the last, or it is busy.
    pub fn calls(&self) -> bool {
        self.has_rung.replace(false) || self.is_busy.get()
    }

    /// Whether there is work to go on with, though no client asks for any.
    pub(crate) fn is_busy(&self) -> bool {
        self.is_busy.get() || self.is_settling.get()
    }

    /// Notes whether holds are being released.
    pub fn set_settling(&self, is_settling: bool) {
        self.is_settling.set(is_settling);
    }

    /// Notes whether the admin socket is busy.
    pub fn set_busy(&self, is_busy: bool) {
        self.is_busy.set(is_busy);
    }

    pub(crate) fn is_stopping(&self) -> bool {
        self.is_stopping.get()
    }

    /// Asks the service to end.
    pub fn stop(&self) {
        self.is_stopping.set(true);
    }

    /// How many clients there are and were.
    pub fn counts(&self) -> Counts {
        self.counts.get()
    }

    pub(crate) fn note(&self, counts: &Counts) {
        self.counts.set(*counts);
    }

    /// What was done so far.
    pub fn tally(&self) -> Tally {
        self.tally.get()
    }

    /// Replaces what was counted.
    pub fn set_tally(&self, tally: Tally) {
        self.tally.set(tally);
    }
}
