//! A file that is broken while it is served.

use super::files::Step::{Breaks, Posts};
use super::files::{opened, take_steps};
use super::homes::Notice::Refused;
use super::homes::{Notes, Nowhere};
use super::scripted::Hand;
use super::serving::{UNAVAILABLE, exchange_over};
use chain::InUse;
use command_texts::Fault;
use sqlite::Options;
use sqlite_disk::Disk;
use std::fs;
use std::test::Fail;
use store::Store;

// So few pages that a batch reads the file.
const SMALL: Options = Options {
    cache_pages: 4,
    spill_pages: 4,
    checkpoint_frames: 8,
    seed: 7,
};

/// Serves the ledger in a file to a client, once these bytes are written over the file and its log
/// is emptied. It is told twice that the service is unavailable, and this fault is told once.
pub fn breaks(rt: &HostRuntime, db: &str, bytes: &[u8], fault: Fault) -> Result<(), Fail> {
    let store = opened(rt, db, SMALL)?;
    let clock = Hand::new();
    let home = Nowhere(Notes::new(rt.alloc(), &clock));
    let told = broken(rt, db, bytes, &home, &clock, store)?;
    let want = format!(in rt.alloc(); "|{UNAVAILABLE}{UNAVAILABLE}|")?;
    if told.as_slice() == want.as_bytes() && home.0.are(&[Refused(fault)]) {
        return Ok(());
    }
    Err(Fail::new(format_args!("broken: {told:?}")))
}

// What two clients are told, one of which sends two messages and the other none.
fn broken<D: Disk + Drop>(
    rt: &HostRuntime,
    db: &str,
    bytes: &[u8],
    home: &Nowhere,
    clock: &Hand,
    store: InUse<Store<D>>,
) -> Result<Vec<u8>, Fail> {
    let log = format!(in rt.alloc(); "{db}-wal")?;
    fs::write(rt, db, bytes)?;
    fs::write(rt, log.as_str(), "")?;
    Ok(exchange_over(rt.alloc(), home, store, clock, 1, (2, 0))?)
}

#[test]
fn tells_why_a_file_is_not_opened_again(rt: HostRuntime) -> Result<(), Fail> {
    take_steps(
        &rt,
        "broken.db",
        &[Posts, Breaks(&[255; 100], Fault::Unreadable)],
    )
}
