//! A disk that is measured.

ghost use Rattle.std.specs.Prelude.{◌≡◌};

use crate::Meter;
use sqlite_disk::{Crash, Disk, Tally};
use std::io;
use std::time::{Clock, Duration};

/// A disk whose syncs and failed calls a meter counts. It hands on each call, and fails none itself.
#[derive(Drop)]
pub struct Metered<'a, D: Disk, K: Clock> {
    inner: D,
    clock: &'a K,
    meter: &'a Meter,
}

impl<'a, D: Disk, K: Clock> Metered<'a, D, K> {
    /// Measures a disk. Where the clock cannot be read, a sync is taken to have had no time.
    pub fn new(inner: D, clock: &'a K, meter: &'a Meter) -> Metered<'a, D, K>
        ensures { result.inner ≡ inner }
    {
        Metered {
            inner,
            clock,
            meter,
        }
    }
}

// How long it is since this moment.
fn time_since<K: Clock>(clock: &K, begun: io::Result<Duration>) -> Duration {
    match (begun, clock.monotonic()) {
        (Ok(begun), Ok(now)) => now.saturating_sub(begun),
        _ => Duration::ZERO,
    }
}

impl<D: Disk, K: Clock> Disk for Metered<'_, D, K> {
    ghost seen = { λ m. D.Disk.seen m.inner };

    ghost may_leave = { λ m. D.Disk.may_leave m.inner };

    ghost is_usable = { λ m. D.Disk.is_usable m.inner };

    ghost faults = { λ m. D.Disk.faults m.inner };

    ghost tally_of = { λ m. D.Disk.tally_of m.inner };

    ghost is_rotten = { λ m. D.Disk.is_rotten m.inner };

    ghost key_of = { λ m. D.Disk.key_of m.inner };

    ghost is_clean = { λ m. D.Disk.is_clean m.inner };

    ghost is_fair = { λ m. D.Disk.is_fair m.inner };

    ghost fair_if_clean = { λ m. D.Disk.fair_if_clean m.inner };

    ghost seen_may_stay = { λ m. D.Disk.seen_may_stay m.inner };

    ghost is_mixing = { λ m. D.Disk.is_mixing m.inner };

    fn mixes(&self) -> bool {
        self.inner.mixes()
    }

    fn key(&self) -> u64 {
        self.inner.key()
    }

    fn tally(&self) -> Tally {
        self.inner.tally()
    }

    fn may_be_used(&self) -> bool {
        self.inner.may_be_used()
    }

    fn len(&mut self) -> io::Result<usize> {
        let outcome = self.inner.len();
        self.meter.note_call(outcome.is_ok());
        outcome
    }

    fn read_at(&mut self, at: usize, buf: &mut [u8]) -> io::Result<()> {
        let outcome = self.inner.read_at(at, buf);
        self.meter.note_call(outcome.is_ok());
        outcome
    }

    fn read_checked(&mut self, key: u64, want: u64, at: usize, buf: &mut [u8]) -> io::Result<()> {
        let outcome = self.inner.read_checked(key, want, at, buf);
        self.meter.note_call(outcome.is_ok());
        outcome
    }

    fn write_at(&mut self, at: usize, bytes: &[u8]) -> io::Result<()> {
        let outcome = self.inner.write_at(at, bytes);
        self.meter.note_call(outcome.is_ok());
        outcome
    }

    fn set_len(&mut self, len: usize) -> io::Result<()> {
        let outcome = self.inner.set_len(len);
        self.meter.note_call(outcome.is_ok());
        outcome
    }

    fn sync(&mut self) -> io::Result<()> {
        let begun = self.clock.monotonic();
        let outcome = self.inner.sync();
        self.meter.note_sync(time_since(self.clock, begun));
        self.meter.note_call(outcome.is_ok());
        outcome
    }
}

impl<D: Crash, K: Clock> Crash for Metered<'_, D, K> {
    fn crash(&mut self) {
        self.inner.crash();
    }
}
