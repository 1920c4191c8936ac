//! Which tenants have holds that are due.

use super::driven::Driven;
use super::events::{accounts, transfer};
use crate::tests::disks::{Calls, Faulty, InMemory, WIDE};
use crate::tests::works::{Opening, Sending};
use records::TransferEvent;
use sqlite::Files;
use sqlite_disk::Disk;
use std::alloc::Global;
use std::process::Abort;
use std::test::Fail;
use store::{Overdue, Search};
use tenants::TenantName;

pub const NORTH: [u8; 32] = [1; 32];

const SOUTH: [u8; 32] = [2; 32];

/// A second, in nanoseconds.
const SECOND: u64 = 1_000_000_000;

/// A store in memory with two tenants, each with the accounts 1 and 2.
pub fn made<D: Faulty>(alloc: Global) -> Result<Driven<D>, Fail> {
    let files = Files {
        log: D::made(alloc, Calls::All),
        db: D::made(alloc, Calls::All),
    };
    let mut store = match Driven::make(alloc, files, WIDE) {
        Ok(store) => store,
        Err((fault, _)) => return Err(Fail::new(format_args!("{fault:?}"))),
    };
    for (name, digest) in [("North", &NORTH), ("South", &SOUTH)] {
        let name = TenantName::read(name).ok_or("no name")?;
        store.add(&name, digest)?;
        let accounts = accounts(alloc, "1; 2")?;
        let opening = Opening {
            alloc,
            accounts: accounts.as_slice(),
            moment: 0,
        };
        store.run(digest, opening)?;
    }
    Ok(store)
}

/// So many holds of a tenant for a second, made at the moment 0 behind its two accounts: the first
/// is due 3 nanoseconds behind the first second, and each later one a nanosecond later.
fn hold<D: Disk + Drop>(
    alloc: Global,
    store: &mut Driven<D>,
    digest: &[u8; 32],
    many: u16,
) -> Result<(), Fail> {
    let mut holds = Vec::new(alloc);
    for id in 0..many {
        let mut hold = transfer("1>2 1 pending timeout=1");
        hold.id = 1000 + u128::from(id);
        holds.push(hold)?;
    }
    settle(alloc, store, digest, holds.as_slice(), 0)
}

/// A batch of transfers at a moment. One of none settles the tenant to it.
pub fn settle<D: Disk + Drop>(
    alloc: Global,
    store: &mut Driven<D>,
    digest: &[u8; 32],
    transfers: &[TransferEvent],
    moment: u64,
) -> Result<(), Fail> {
    let sending = Sending {
        alloc,
        transfers,
        moment,
    };
    store.run(digest, sending)?;
    Ok(())
}

/// The time so many nanoseconds behind the first second.
fn behind_first(nanoseconds: u32) -> u64 {
    SECOND + u64::from(nanoseconds)
}

fn found(number: i64, digest: [u8; 32], behind: u32, has_more: bool) -> Option<Overdue> {
    Some(Overdue {
        number,
        digest,
        until: behind_first(behind),
        has_more,
    })
}

/// What is found of 450 holds of North and one of South, while whoever is found is settled. The
/// last piece is found twice, since the batch that releases it leaves it in memory.
fn finds<D: Faulty>(rt: &impl Abort, alloc: Global) -> Result<(), Fail> {
    let mut store = made::<D>(alloc)?;
    hold(alloc, &mut store, &NORTH, 450)?;
    hold(alloc, &mut store, &SOUTH, 1)?;
    let mut search = Search::new();
    assert_eq!(rt;
        store.ledgers.backend.overdue(&mut search, SECOND + 2),
        Ok(None)
    );
    assert!(rt; search.begins());
    // Of what is due for less than a second only a great many are told.
    for behind in [202, 402] {
        let moment = SECOND + 500;
        assert_eq!(rt;
            store.ledgers.backend.overdue(&mut search, moment),
            Ok(found(1, NORTH, behind, true))
        );
        settle(alloc, &mut store, &NORTH, &[], behind_first(behind))?;
        assert_eq!(rt;
            store.ledgers.backend.overdue(&mut search, moment),
            Ok(None)
        );
        assert!(rt; search.begins());
    }
    assert_eq!(rt;
        store.ledgers.backend.overdue(&mut search, SECOND + 500),
        Ok(None)
    );
    let later = 2 * SECOND + 500;
    for _ in 0..2 {
        assert_eq!(rt;
            store.ledgers.backend.overdue(&mut search, later),
            Ok(found(1, NORTH, 452, false))
        );
        assert_eq!(rt;
            store.ledgers.backend.overdue(&mut search, later),
            Ok(found(2, SOUTH, 3, false))
        );
        settle(alloc, &mut store, &NORTH, &[], SECOND + 452)?;
        settle(alloc, &mut store, &SOUTH, &[], SECOND + 3)?;
        assert_eq!(rt; store.ledgers.backend.overdue(&mut search, later), Ok(None));
        assert!(rt; search.begins());
    }
    assert_eq!(rt; store.ledgers.backend.overdue(&mut search, later), Ok(None));
    Ok(())
}

#[test]
fn what_is_due_is_found_in_pieces(rt: HostRuntime) -> Result<(), Fail> {
    finds::<InMemory>(&rt, rt.alloc())
}
