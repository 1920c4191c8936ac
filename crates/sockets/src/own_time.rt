//! A clock that stands still while nobody could be served.
ghost use Rattle.std.specs.Prelude.{◌≡◌, ◌-◌};
ghost use Rattle.std.specs.Duration.{as_nanos};
ghost use Rattle.sockets.specs.Time.{after_turn, after_wait};

use std::time::Duration;

/// What takes more milliseconds between two waits counts for nobody.
const STALL: u64 = 100;

/// Time in which clients could have been served.
#[derive(Clone, Copy, Debug)]
pub(crate) struct OwnTime {
    /// The moment of this clock.
    pub(crate) now: Duration,
    /// The moment of the machine's clock when it was last looked at.
    pub(crate) seen: Duration,
}

impl OwnTime {
    /// Begins at 0.
    pub(crate) fn new(seen: Duration) -> OwnTime {
        OwnTime {
            now: Duration::ZERO,
            seen,
        }
    }

    /// Something was done for clients up to this moment of the machine's clock.
    pub(crate) fn turned(&mut self, seen: Duration)
        ensures now { as_nanos self.new.now
            ≡ after_turn (as_nanos self.old.now) (as_nanos seen - as_nanos self.old.seen) }
        ensures seen { self.new.seen ≡ seen }
    {
        let passed = seen.saturating_sub(self.seen);
        if passed <= Duration::from_millis(STALL) {
            self.now = self.now.saturating_add(passed);
        }
        self.seen = seen;
    }

    /// Clients were waited for up to this moment of the machine's clock, for so long at most. What
    /// passed beyond that counts for nobody.
    pub(crate) fn waited(&mut self, seen: Duration, most: Duration)
        ensures now { as_nanos self.new.now
            ≡ after_wait (as_nanos self.old.now) (as_nanos seen - as_nanos self.old.seen)
            (as_nanos most) }
        ensures seen { self.new.seen ≡ seen }
    {
        let passed = seen.saturating_sub(self.seen);
        self.now = self.now.saturating_add(passed.min(most));
        self.seen = seen;
    }
}
