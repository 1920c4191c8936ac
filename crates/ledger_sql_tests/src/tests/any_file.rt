//! A file in memory or on the host, of which nothing is claimed.

ghost use Rattle.std.specs.Prelude.{◌≡◌, ◌+◌, true, false, refl};
ghost use Rattle.either.specs.Either.{either, MatchEither};
ghost use Rattle.std.proofs.Common.{subst};
ghost use Rattle.sqlite_trees.specs.View.{doubt};
ghost use Rattle.sqlite_trees.proofs.Doubt.{never_clean};
ghost use Rattle.sqlite_pool.proofs.StateLemmas.{clean_is};
ghost use Rattle.ledger_sql_tests.specs.Sides.{by_side};

use super::unclaimed::Unclaimed;
use either::{Either, Left, Right};
use sqlite::{File, FileStore};
use sqlite_disk::{Disk, Memory, Tally, digest_of};
use std::io;

pub type AnyFile = OneOf<Memory, File>;

/// One of two disks.
#[derive(Drop)]
pub struct OneOf<A: Disk, B: Disk> {
    pub inner: Either<A, B>,
    failed_reads: u64,
}

impl<A: Disk, B: Disk> OneOf<A, B> {
    pub fn new(inner: Either<A, B>) -> Self
        ensures { result.inner ≡ inner }
    {
        OneOf {
            inner,
            failed_reads: 0,
        }
    }
}

impl<A: Disk, B: Disk> Disk for OneOf<A, B> {
    ghost seen = { λ u. either A.Disk.seen B.Disk.seen u.inner };

    ghost may_leave = { λ u bytes. MatchEither u.inner
        (λ disk. A.Disk.may_leave disk bytes) (λ disk. B.Disk.may_leave disk bytes) };

    ghost is_usable = { λ u. either A.Disk.is_usable B.Disk.is_usable u.inner };

    ghost faults = { λ u. either A.Disk.faults B.Disk.faults u.inner + u.failed_reads };

    ghost tally_of = { λ u. either A.Disk.tally_of B.Disk.tally_of u.inner };

    ghost is_clean = { λ _. false };

    ghost key_of = { λ u. either A.Disk.key_of B.Disk.key_of u.inner };

    ghost is_fair = { λ _ _. true };

    ghost fair_if_clean = { λ _ _ _. refl };

    ghost seen_may_stay = { λ u. by_side (λ e. MatchEither e
        (λ disk. A.Disk.may_leave disk (either A.Disk.seen B.Disk.seen e))
        (λ disk. B.Disk.may_leave disk (either A.Disk.seen B.Disk.seen e)))
        A.Disk.seen_may_stay B.Disk.seen_may_stay u.inner };

    fn mixes(&self) -> bool {
        false
    }

    fn key(&self) -> u64 {
        match &self.inner {
            Left(disk) => disk.key(),
            Right(disk) => disk.key(),
        }
    }

    fn tally(&self) -> Tally {
        match &self.inner {
            Left(disk) => disk.tally(),
            Right(disk) => disk.tally(),
        }
    }

    fn may_be_used(&self) -> bool {
        match &self.inner {
            Left(disk) => disk.may_be_used(),
            Right(disk) => disk.may_be_used(),
        }
    }

    fn len(&mut self) -> io::Result<usize> {
        match &mut self.inner {
            Left(disk) => disk.len(),
            Right(disk) => disk.len(),
        }
    }

    fn read_at(&mut self, at: usize, buf: &mut [u8]) -> io::Result<()> {
        let answer = match &mut self.inner {
            Left(disk) => disk.read_at(at, buf),
            Right(disk) => disk.read_at(at, buf),
        };
        if answer.is_err() {
            self.failed_reads = self.failed_reads.saturating_add(1);
        }
        answer
    }

    fn read_checked(&mut self, key: u64, want: u64, at: usize, buf: &mut [u8]) -> io::Result<()> {
        self.read_at(at, buf)?;
        if digest_of(key, buf) != want {
            return Err(io::ErrorKind::InvalidData.into());
        }
        Ok(())
    }

    fn write_at(&mut self, at: usize, bytes: &[u8]) -> io::Result<()> {
        match &mut self.inner {
            Left(disk) => disk.write_at(at, bytes),
            Right(disk) => disk.write_at(at, bytes),
        }
    }

    fn set_len(&mut self, len: usize) -> io::Result<()> {
        match &mut self.inner {
            Left(disk) => disk.set_len(len),
            Right(disk) => disk.set_len(len),
        }
    }

    fn sync(&mut self) -> io::Result<()> {
        match &mut self.inner {
            Left(disk) => disk.sync(),
            Right(disk) => disk.sync(),
        }
    }
}

impl<A: Disk, B: Disk> Unclaimed for FileStore<OneOf<A, B>> {
    ghost never_clean = { λ store clean. never_clean
        (subst (λ b. doubt b ≡ 0) (clean_is store.pool) clean) };
}
