//! A store in memory of which nothing is claimed.

ghost use Rattle.std.specs.Prelude.{◌≡◌, ◌+◌, true, false, refl, IsTrue};

use sqlite::FileStore;
use sqlite_disk::{Disk, Memory, Tally, digest_of};
use std::alloc::Global;
use std::io;

pub type Store = FileStore<Doubted>;

/// A disk in memory.
#[derive(Drop)]
pub struct Doubted {
    inner: Memory,
    failed_reads: u64,
}

impl Doubted {
    pub fn new(alloc: Global) -> Doubted
        ensures { IsTrue (⟦<Doubted as Disk>⟧.is_usable result) }
    {
        Doubted {
            inner: Memory::new(alloc),
            failed_reads: 0,
        }
    }
}

impl Disk for Doubted {
    ghost seen = { λ d. ⟦<Memory as Disk>⟧.seen d.inner };

    ghost may_leave = { λ d. ⟦<Memory as Disk>⟧.may_leave d.inner };

    ghost is_usable = { λ d. ⟦<Memory as Disk>⟧.is_usable d.inner };

    ghost faults = { λ d. ⟦<Memory as Disk>⟧.faults d.inner + d.failed_reads };

    ghost tally_of = { λ d. ⟦<Memory as Disk>⟧.tally_of d.inner };

    ghost is_clean = { λ _. false };

    ghost key_of = { λ d. ⟦<Memory as Disk>⟧.key_of d.inner };

    ghost is_fair = { λ _ _. true };

    ghost fair_if_clean = { λ _ _ _. refl };

    ghost seen_may_stay = { λ d. ⟦<Memory as Disk>⟧.seen_may_stay d.inner };

    fn mixes(&self) -> bool {
        false
    }

    fn key(&self) -> u64 {
        self.inner.key()
    }

    fn tally(&self) -> Tally {
        self.inner.tally()
    }

    fn may_be_used(&self) -> bool {
        self.inner.may_be_used()
    }

    fn len(&mut self) -> io::Result<usize> {
        self.inner.len()
    }

    fn read_at(&mut self, at: usize, buf: &mut [u8]) -> io::Result<()> {
        let answer = self.inner.read_at(at, buf);
        if answer.is_err() {
            self.failed_reads = self.failed_reads.saturating_add(1);
        }
        answer
    }

    fn read_checked(&mut self, key: u64, want: u64, at: usize, buf: &mut [u8]) -> io::Result<()> {
        self.read_at(at, buf)?;
        if digest_of(key, buf) != want {
            return Err(io::ErrorKind::InvalidData.into());
        }
        Ok(())
    }

    fn write_at(&mut self, at: usize, bytes: &[u8]) -> io::Result<()> {
        self.inner.write_at(at, bytes)
    }

    fn set_len(&mut self, len: usize) -> io::Result<()> {
        self.inner.set_len(len)
    }

    fn sync(&mut self) -> io::Result<()> {
        self.inner.sync()
    }
}
