//! How serving ends.
ghost use Rattle.std.specs.Prelude.{◌≡◌, None};
ghost use Rattle.std.specs.Duration.{as_nanos};
ghost use Rattle.sockets.specs.Closing.{phase, IsUntil, left, IsMomentPast};

use crate::stages::has_come;
use std::time::Duration;

/// For how many seconds those are served who had sent something before.
const SECONDS: u64 = 1;

/// What is to be done when something is to be told.
#[derive(Clone, Copy, Debug, PartialEq, Eq)]
pub(crate) enum Phase {
    /// Everybody is served.
    Serves,
    /// No more is to be begun from now on. It is looked once more who has sent something.
    Begins,
    /// Those are served who had.
    Closes,
    /// Nobody is served any more.
    Ends,
}

/// Whether serving is to end, and when.
#[derive(Clone, Copy, Debug)]
pub(crate) struct Closing {
    /// Until when those are served who had sent something before, by the machine's clock.
    until: Option<Duration>,
}

impl Closing {
    /// Nobody has asked for it.
    pub(crate) fn new() -> Closing
        ensures { result ≡ record { until = None } }
    {
        Closing { until: None }
    }

    /// What is to be done at this moment, where an operator asks to stop, or not.
    pub(crate) fn learns(&mut self, is_stopping: bool, seen: Duration) -> Phase
        ensures phase { result ≡ phase self.old.until is_stopping seen }
        ensures until { IsUntil self.old.until is_stopping seen self.new.until }
    {
        if let Some(until) = self.until {
            if has_come(until, seen) {
                return Phase::Ends;
            }
            return Phase::Closes;
        }
        if !is_stopping {
            return Phase::Serves;
        }
        self.until = Some(seen.saturating_add(Duration::from_secs(SECONDS)));
        Phase::Begins
    }

    /// How much of its time is left, if it has begun.
    pub(crate) fn left(self, seen: Duration) -> Duration
        ensures { as_nanos result ≡ left self.until seen }
    {
        match self.until {
            Some(until) => until.saturating_sub(seen),
            None => Duration::ZERO,
        }
    }

    /// Nobody is left to be served.
    pub(crate) fn end(&mut self)
        ensures { IsMomentPast self.new.until }
    {
        self.until = Some(Duration::ZERO);
    }
}
