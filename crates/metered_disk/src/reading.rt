//! What a meter shows.

ghost use Rattle.std.specs.Prelude.{◌≡◌, ◌+◌, max, min};
ghost use Rattle.std.specs.Duration.{as_nanos, max_nanos};
ghost use Rattle.metered_disk.specs.Counts.{up_to_most};

use std::time::Duration;

/// What disks have done since their meter was new. No count goes beyond 2^64 - 1.
#[derive(Clone, Copy, Debug, PartialEq, Eq)]
pub struct Reading {
    /// Syncs, with those that failed.
    pub syncs: u64,
    /// The time of all syncs.
    pub busy: Duration,
    /// That of the longest one.
    pub longest: Duration,
    /// Calls that failed, of every kind.
    pub faults: u64,
}

impl Reading {
    /// Nothing was done.
    pub fn new() -> Reading
        ensures counts { (result.syncs ≡ 0) × (result.faults ≡ 0) }
        ensures times { (as_nanos result.busy ≡ 0) × (as_nanos result.longest ≡ 0) }
    {
        Reading {
            syncs: 0,
            busy: Duration::ZERO,
            longest: Duration::ZERO,
            faults: 0,
        }
    }

    /// A sync has taken so long.
    pub fn synced(&mut self, took: Duration)
        ensures syncs { self.new.syncs ≡ up_to_most (self.old.syncs + 1) }
        ensures busy { as_nanos self.new.busy ≡ min (as_nanos self.old.busy + as_nanos took) max_nanos }
        ensures longest { as_nanos self.new.longest ≡ max (as_nanos self.old.longest) (as_nanos took) }
        ensures faults { self.new.faults ≡ self.old.faults }
    {
        self.syncs = self.syncs.saturating_add(1);
        self.busy = self.busy.saturating_add(took);
        self.longest = self.longest.max(took);
    }

    /// A call has failed.
    pub fn failed(&mut self)
        ensures { self.new ≡ record self.old { faults = up_to_most (self.old.faults + 1) } }
    {
        self.faults = self.faults.saturating_add(1);
    }
}
