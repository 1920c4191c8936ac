//! Syncs that are counted and timed, and calls that fail.

use metered_disk::{Meter, Reading, measured};
use sqlite_disk::{Disk, Files, Fuse, Memory};
use std::cell::Cell;
use std::io;
use std::test::Fail;
use std::time::{Clock, Duration};

/// Each look at it finds that as much time has passed as the looks before it.
#[derive(Drop)]
struct Slowing(Cell<u64>);

impl Clock for Slowing {
    fn monotonic(&self) -> io::Result<Duration> {
        let looks = self.0.get();
        self.0.set(looks.saturating_add(1));
        Ok(Duration::from_secs(looks.saturating_mul(looks)))
    }

    fn since_1970(&self) -> io::Result<Duration> {
        self.monotonic()
    }
}

/// A clock that cannot be read.
struct Broken;

impl Clock for Broken {
    fn monotonic(&self) -> io::Result<Duration> {
        Err(io::Error::other("no clock"))
    }

    fn since_1970(&self) -> io::Result<Duration> {
        self.monotonic()
    }
}

#[test]
fn syncs_of_both_files_are_counted_and_timed(rt: HostRuntime) -> Result<(), Fail> {
    let clock = Slowing(Cell::new(0));
    let meter = Meter::new();
    let files = Files {
        log: Memory::new(rt.alloc()),
        db: Memory::new(rt.alloc()),
    };
    let mut files = measured(files, &clock, &meter);
    files.log.write_at(0, b"ab")?;
    files.log.sync()?;
    files.db.sync()?;
    let want = Reading {
        syncs: 2,
        busy: Duration::from_secs(6),
        longest: Duration::from_secs(5),
        faults: 0,
    };
    assert_eq!(rt; meter.reading(), want);
    Ok(())
}

#[test]
fn calls_that_fail_are_counted(rt: HostRuntime) -> Result<(), Fail> {
    let meter = Meter::new();
    let files = Files {
        log: Fuse::new(Memory::new(rt.alloc()), 1),
        db: Fuse::new(Memory::new(rt.alloc()), 0),
    };
    let mut files = measured(files, &Broken, &meter);
    files.log.write_at(0, b"ab")?;
    assert!(rt; files.log.write_at(2, b"cd").is_err());
    assert!(rt; files.db.len().is_err());
    assert!(rt; files.log.sync().is_err());
    let want = Reading {
        syncs: 1,
        busy: Duration::ZERO,
        longest: Duration::ZERO,
        faults: 3,
    };
    assert_eq!(rt; meter.reading(), want);
    Ok(())
}
