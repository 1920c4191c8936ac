//! How often a mark is appended.

use std::time::Duration;

/// In microseconds: an append that takes longer has gone over a network, or the machine is busy.
const SLOW: u64 = 200;

/// In milliseconds: how long nothing more is appended where two in a row were slow.
const REST: u64 = 100;

/// In seconds: how long nothing is tried again after a failure.
const PAUSE: u64 = 1;

/// The pace of appends to one file, at moments of the machine's clock.
#[derive(Clone, Copy)]
pub(crate) struct Pace {
    /// How many of the last appends in a row were slow.
    slow: u32,
    rests_until: Duration,
}

impl Pace {
    pub(crate) fn new() -> Pace {
        Pace {
            slow: 0,
            rests_until: Duration::ZERO,
        }
    }

    /// Whether nothing is appended at this moment.
    pub(crate) fn rests(&self, now: Duration) -> bool {
        now < self.rests_until
    }

    /// An append has begun and ended at these moments.
    pub(crate) fn took(&mut self, began: Duration, ended: Duration) {
        if ended.saturating_sub(began) < Duration::from_micros(SLOW) {
            self.slow = 0;
            return;
        }
        self.slow = self.slow.saturating_add(1);
        if self.slow > 1 {
            self.rests_until = ended.saturating_add(Duration::from_millis(REST));
        }
    }

    /// At this moment an append has failed, or there was nothing to append to.
    pub(crate) fn failed(&mut self, at: Duration) {
        self.rests_until = at.saturating_add(Duration::from_secs(PAUSE));
    }
}
