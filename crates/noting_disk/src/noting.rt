//! A disk that notes which log is in use.

ghost use Rattle.std.specs.Prelude.{◌≡◌};
ghost use Rattle.noting_disk.specs.Heads.{Shows};

use crate::{HeadSeen, LogNotes};
use sqlite_disk::{Crash, Disk, Tally};
use std::io;

/// A disk that hands each call on. It notes the salt of a log's new header once a sync has returned
/// after which no crash leaves another.
#[derive(Drop)]
pub struct Noting<'a, D: Disk, N: LogNotes> {
    inner: D,
    notes: &'a N,
    is_log: bool,
    head: HeadSeen,
    ghost shows: { Shows head (D.Disk.seen inner) },
}

impl<'a, D: Disk, N: LogNotes> Noting<'a, D, N> {
    /// A log. Its header of now is not noted, only those that follow.
    pub fn log(inner: D, notes: &'a N) -> Noting<'a, D, N>
        ensures { result.inner ≡ inner }
    {
        Noting {
            inner,
            notes,
            is_log: true,
            head: HeadSeen::Unknown,
        }
    }

    /// A file that is no log.
    pub fn file(inner: D, notes: &'a N) -> Noting<'a, D, N>
        ensures { result.inner ≡ inner }
    {
        Noting {
            inner,
            notes,
            is_log: false,
            head: HeadSeen::Unknown,
        }
    }
}

impl<D: Disk, N: LogNotes> Disk for Noting<'_, D, N> {
    ghost seen = { λ m. D.Disk.seen m.inner };

    ghost may_leave = { λ m. D.Disk.may_leave m.inner };

    ghost is_usable = { λ m. D.Disk.is_usable m.inner };

    ghost faults = { λ m. D.Disk.faults m.inner };

    ghost tally_of = { λ m. D.Disk.tally_of m.inner };

    ghost is_rotten = { λ m. D.Disk.is_rotten m.inner };

    ghost key_of = { λ m. D.Disk.key_of m.inner };

    ghost is_clean = { λ m. D.Disk.is_clean m.inner };

    ghost is_fair = { λ m. D.Disk.is_fair m.inner };

    ghost fair_if_clean = { λ m. D.Disk.fair_if_clean m.inner };

    ghost seen_may_stay = { λ m. D.Disk.seen_may_stay m.inner };

    ghost is_mixing = { λ m. D.Disk.is_mixing m.inner };

    fn mixes(&self) -> bool {
        self.inner.mixes()
    }

    fn key(&self) -> u64 {
        self.inner.key()
    }

    fn tally(&self) -> Tally {
        self.inner.tally()
    }

    fn may_be_used(&self) -> bool {
        self.inner.may_be_used()
    }

    fn len(&mut self) -> io::Result<usize> {
        self.inner.len()
    }

    fn read_at(&mut self, at: usize, buf: &mut [u8]) -> io::Result<()> {
        self.inner.read_at(at, buf)
    }

    fn read_checked(&mut self, key: u64, want: u64, at: usize, buf: &mut [u8]) -> io::Result<()> {
        self.inner.read_checked(key, want, at, buf)
    }

    fn write_at(&mut self, at: usize, bytes: &[u8]) -> io::Result<()> {
        let outcome = self.inner.write_at(at, bytes);
        self.head = self.head.after_write(at, bytes, outcome.is_ok());
        outcome
    }

    fn set_len(&mut self, len: usize) -> io::Result<()> {
        let outcome = self.inner.set_len(len);
        self.head = self.head.after_cut(len);
        outcome
    }

    fn sync(&mut self) -> io::Result<()> {
        self.inner.sync()?;
        if self.is_log
            && let HeadSeen::Signed(salt) = self.head
        {
            self.notes.note_log(&self.inner, &salt);
            self.head = HeadSeen::Unknown;
        }
        Ok(())
    }
}

impl<D: Crash, N: LogNotes> Crash for Noting<'_, D, N> {
    fn crash(&mut self) {
        self.inner.crash();
        self.head = HeadSeen::Unknown;
    }
}
