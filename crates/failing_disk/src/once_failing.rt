//! A disk that fails one call and goes on, for tests.

ghost use Rattle.std.specs.Prelude.{◌≡◌, ◌≢◌, ◌+◌, true, false, Some, is_err, is_none};
ghost use Rattle.sqlite_disk.specs.Disk.{CountsFault};
ghost use Rattle.sqlite_disk.specs.Refusal.{finds_no_room};

use sqlite_disk::{Crash, Disk, Tally};
use std::io;

/// A disk that fails one read or write, after so many others, and goes on as if nothing were.
#[derive(Drop)]
pub struct OnceFailing<D: Disk> {
    inner: D,
    /// How many reads and writes come before the one that fails; none once it has failed.
    before: Option<u64>,
    refused: u64,
}

impl<D: Disk> OnceFailing<D> {
    pub fn new(inner: D, before: u64) -> OnceFailing<D>
        ensures inner { result.inner ≡ inner }
        ensures before { result.before ≡ Some before }
    {
        OnceFailing {
            inner,
            before: Some(before),
            refused: 0,
        }
    }

    /// Whether the call has failed already.
    pub fn has_failed(&self) -> bool
        ensures { result ≡ is_none self.now.before }
    {
        self.before.is_none()
    }
}

/// Counts down to the call that fails.
fn spend(before: &mut Option<u64>, refused: &mut u64) -> io::Result<()>
    ensures faults { CountsFault result refused.old refused.new }
    ensures kind { finds_no_room result ≡ false }
    ensures fails { before.old ≡ Some 0 → is_err result ≡ true }
    ensures goes_on { before.old ≢ Some 0 → is_err result ≡ false }
{
    match *before {
        None => Ok(()),
        Some(0) => {
            *before = None;
            *refused = refused.saturating_add(1);
            Err(io::Error::other("this call fails"))
        }
        Some(left) => {
            *before = Some(left - 1);
            Ok(())
        }
    }
}

impl<D: Disk> Disk for OnceFailing<D> {
    ghost seen = { λ f. D.Disk.seen f.inner };

    ghost may_leave = { λ f. D.Disk.may_leave f.inner };

    ghost is_usable = { λ f. D.Disk.is_usable f.inner };

    ghost faults = { λ f. D.Disk.faults f.inner + f.refused };

    ghost tally_of = { λ f. D.Disk.tally_of f.inner };

    ghost is_rotten = { λ f. D.Disk.is_rotten f.inner };

    ghost key_of = { λ f. D.Disk.key_of f.inner };

    ghost is_clean = { λ f. D.Disk.is_clean f.inner };

    ghost is_fair = { λ f. D.Disk.is_fair f.inner };

    ghost fair_if_clean = { λ f. D.Disk.fair_if_clean f.inner };

    ghost seen_may_stay = { λ f. D.Disk.seen_may_stay f.inner };

    ghost is_mixing = { λ f. D.Disk.is_mixing f.inner };

    fn mixes(&self) -> bool {
        self.inner.mixes()
    }

    fn key(&self) -> u64 {
        self.inner.key()
    }

    fn tally(&self) -> Tally {
        self.inner.tally()
    }

    fn may_be_used(&self) -> bool {
        self.inner.may_be_used()
    }

    fn len(&mut self) -> io::Result<usize> {
        self.inner.len()
    }

    fn read_at(&mut self, at: usize, buf: &mut [u8]) -> io::Result<()> {
        spend(&mut self.before, &mut self.refused)?;
        self.inner.read_at(at, buf)
    }

    fn read_checked(&mut self, key: u64, want: u64, at: usize, buf: &mut [u8]) -> io::Result<()> {
        spend(&mut self.before, &mut self.refused)?;
        self.inner.read_checked(key, want, at, buf)
    }

    fn write_at(&mut self, at: usize, bytes: &[u8]) -> io::Result<()> {
        spend(&mut self.before, &mut self.refused)?;
        self.inner.write_at(at, bytes)
    }

    fn set_len(&mut self, len: usize) -> io::Result<()> {
        self.inner.set_len(len)
    }

    fn sync(&mut self) -> io::Result<()> {
        self.inner.sync()
    }
}

impl<D: Crash> Crash for OnceFailing<D> {
    fn crash(&mut self) {
        self.inner.crash();
    }
}
