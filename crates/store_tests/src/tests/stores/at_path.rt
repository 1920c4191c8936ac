//! A ledger in a file.

use super::bench::fault_shown;
use super::driven::Driven;
use super::playing::play_on;
use crate::tests::disks::WIDE;
use sqlite_disk::{Disk, Start, Unknown};
use std::alloc::Global;
use std::fs;
use std::process::Abort;
use store::OpenFault;

const PATH: &str = "store_tests.db";

const LOG: &str = "store_tests.db-wal";

const POSTED: &str = "\
North add 1 => Ok(())
North accounts 1; 2; 3 flags=10; 4 => clock 4: 0@1 0@2 0@3 0@4
North transfers 100: 1>2 100 pending; 101: post=100 40; 102: post=100 60 => clock 7: 0@5 0@6 32@7";

const RETRIED: &str = "\
North ready => (true, 3)
North reopen => Ok(())
North transfers 101: post=100 40; 101: post=100 41 => clock 9: 18@8 12@9
North see 1 => Ok((Some([0, 40, 0, 0]), Some(Posted), 9))
North reopen => Ok(())
North rows clock => 1 rows: 9";

const REFUSED: &str = "store_tests_refused.db";

const REFUSED_LOG: &str = "store_tests_refused.db-wal";

fn remove(rt: &HostRuntime, paths: [&str; 2]) {
    for path in paths {
        let _ = fs::remove_file(rt, path);
    }
}

/// Why nothing was opened.
fn why_not<D: Disk + Drop>(alloc: Global, opened: Result<Driven<D>, OpenFault>) -> Option<String> {
    match opened {
        Ok(store) => {
            store.end();
            None
        }
        Err(fault) => fault_shown(alloc, fault).ok(),
    }
}

/// Why nothing is opened at a path.
fn refusal<St: Start>(rt: &HostRuntime, path: &str, start: St) -> Option<String> {
    why_not(rt.alloc(), Driven::open_at(rt, path, start, WIDE))
}

/// Whether nothing is opened at a path, for this reason.
fn is_refused(rt: &HostRuntime, path: &str, why: &str) -> bool {
    match refusal(rt, path, Unknown) {
        Some(told) => told.as_str() == why,
        None => false,
    }
}

/// Calls a ledger that was made or opened.
fn plays<D: Disk + Drop>(
    rt: &impl Abort,
    alloc: Global,
    store: Result<Driven<D>, OpenFault>,
    script: &str,
) {
    match store {
        Ok(mut store) => {
            play_on(rt, alloc, &mut store, script);
            store.end();
        }
        Err(fault) => panic!(rt; "no ledger: {fault:?}"),
    }
}

#[test]
fn a_ledger_goes_on_in_a_file(rt: HostRuntime) {
    remove(&rt, [PATH, LOG]);
    assert!(rt; is_refused(&rt, ":memory:", "Unreadable"));
    assert!(rt; is_refused(&rt, PATH, "NotALedger"));
    let made = Driven::make_at(&rt, PATH, Unknown, WIDE);
    plays(&rt, rt.alloc(), made, POSTED);
    let opened = Driven::open_at(&rt, PATH, Unknown, WIDE);
    plays(&rt, rt.alloc(), opened, RETRIED);
    remove(&rt, [PATH, LOG]);
}

#[test]
fn a_ledger_is_made_in_files_that_were_refused(rt: HostRuntime) {
    remove(&rt, [REFUSED, REFUSED_LOG]);
    let made = Driven::make_in_refused(&rt, REFUSED, Unknown, WIDE);
    plays(&rt, rt.alloc(), made, POSTED);
    let opened = Driven::open_at(&rt, REFUSED, Unknown, WIDE);
    plays(&rt, rt.alloc(), opened, RETRIED);
    remove(&rt, [REFUSED, REFUSED_LOG]);
}
