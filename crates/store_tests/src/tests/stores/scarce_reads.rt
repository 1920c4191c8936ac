//! Reads where memory is wanting: they list nothing, or of a statement its beginning, and then all.

use super::driven::Driven;
use super::memory::{NORTH, mended};
use amount::Amount;
use chain::{Ledgers, Listed, ReadFault};
use records::{
    AccountFilter, Balances, FilterFlags, Kind, Order, Side, SinkFault, StatementRow, Sums,
    Unavailable,
};
use sqlite_disk::{Crash, Disk};
use std::alloc::Global;
use std::process::Abort;

/// How many entries account 3 has: of 1 each from account 1, with ids from 1000 and timestamps from
/// 5 on.
pub const ENTRIES: usize = 40;

/// How many entries were listed.
fn count<T: Drop>(told: Result<Listed<T>, ReadFault>) -> Result<usize, ReadFault> {
    match told {
        Ok(listed) => Ok(listed.entries.len()),
        Err(fault) => Err(fault),
    }
}

/// The entry with so many before it, as the statement has it.
fn row(before: u64) -> StatementRow {
    let posted = Sums {
        pending: Amount::ZERO,
        posted: Amount::new(u128::from(before.saturating_add(1))),
    };
    StatementRow {
        timestamp: before.saturating_add(5),
        transfer_id: u128::from(before.saturating_add(1000)),
        side: Side::Credit,
        kind: Kind::Single,
        amount: Amount::new(1),
        balances: Balances {
            debits: Sums::ZERO,
            credits: posted,
        },
    }
}

/// Whether the rows are the first entries.
fn are_first(rows: &[StatementRow]) -> bool {
    let mut before = 0;
    for each in rows {
        if *each != row(before) {
            return false;
        }
        before = before.saturating_add(1);
    }
    true
}

/// How many rows of the statement came, if it is whole. In any case they are its first ones.
fn stated<D: Disk + Drop>(
    rt: &impl Abort,
    alloc: Global,
    store: &mut Driven<D>,
) -> Result<usize, ReadFault> {
    let (rows, ended) = store.statement(alloc, &NORTH, (3, Order::Oldest, ENTRIES));
    assert!(rt; are_first(&rows), "{rows:?}");
    ended?;
    Ok(rows.len())
}

/// How many entries a read of some kind lists.
fn listed<D: Disk + Drop>(
    rt: &impl Abort,
    alloc: Global,
    store: &mut Driven<D>,
    kind: u8,
) -> Result<usize, ReadFault> {
    let asked = AccountFilter {
        account_id: 3,
        timestamp_min: 0,
        timestamp_max: 0,
        limit: 1000,
        flags: FilterFlags(3),
    };
    match kind {
        0 => count(store.ledgers.lookup_accounts(alloc, &NORTH, &[1, 9, 3])),
        1 => count(
            store
                .ledgers
                .lookup_transfers(alloc, &NORTH, &[1000, 9, 1001]),
        ),
        2 => count(store.ledgers.history_transfers(alloc, &NORTH, &asked)),
        3 => count(store.ledgers.history_balances(alloc, &NORTH, &asked)),
        _ => stated(rt, alloc, store),
    }
}

/// Why a read has no answer, which is there.
fn want(rt: &impl Abort, fault: ReadFault) -> Unavailable {
    match fault {
        ReadFault::Unavailable(why) => why,
        ReadFault::Sink(SinkFault::Memory) => Unavailable::Memory,
        _ => panic!(rt; "{fault:?}"),
    }
}

/// Each kind of read, which lists what is there once there is memory.
pub fn reads<D: Crash + Drop>(rt: &impl Abort, alloc: Global, mut store: Driven<D>) {
    for (kind, entries) in [(0, 2), (1, 2), (2, ENTRIES), (3, ENTRIES), (4, ENTRIES)] {
        let mut told = listed(rt, alloc, &mut store, kind);
        if let Err(fault) = told {
            store = mended(rt, alloc, store, want(rt, fault));
            told = listed(rt, alloc, &mut store, kind);
        }
        assert_eq!(rt; told, Ok(entries));
    }
    store.end();
}
