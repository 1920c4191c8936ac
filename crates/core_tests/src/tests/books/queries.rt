//! Pages of transfers, accounts and open holds, each row counted by hand.
use super::firms::{FIRM, Firms, NOBODY};
use crate::tests::asserting::same;
use chain::{Ledgers, QueryPage, ReadFault};
use records::{
    AccountWithBalances, Hold, PageFilter, PageFlags, PendingState, QueryFilter, Tags, Transfer,
    TransferEvent,
};
use samples::{PENDING, post, transfer, with};
use std::alloc::Global;
use std::process::Abort;
use std::test::Fail;

const OLDEST: u16 = 0;

const NEWEST: u16 = 1;

const ANY: Tags = Tags {
    user_data_128: 0,
    user_data_64: 0,
    user_data_32: 0,
    ledger: 0,
    code: 0,
};

const INVOICE: Tags = Tags {
    user_data_64: 4711,
    ..ANY
};

// What is asked for between two bounds, themselves included.
fn query(tags: Tags, bounds: (u64, u64), limit: u32, flags: u16) -> QueryFilter {
    QueryFilter {
        tags,
        page: PageFilter {
            timestamp_min: bounds.0,
            timestamp_max: bounds.1,
            limit,
            flags: PageFlags(flags),
        },
    }
}

// Accounts 1 to 4 have the timestamps 1 to 4, and the transfers 100 to 104 those of 5 to 9. Of
// these 100 and 103 are pending, and 102 is for invoice 4711.
fn five_transfers(alloc: Global) -> Result<Firms, Fail> {
    let paid = TransferEvent {
        user_data_64: 4711,
        ..transfer(102, (1, 2), 6)
    };
    let transfers = [
        with(PENDING, transfer(100, (1, 2), 100)),
        transfer(101, (1, 2), 5),
        paid,
        with(PENDING, transfer(103, (2, 1), 7)),
        transfer(104, (1, 2), 8),
    ];
    Firms::after(alloc, &transfers)
}

// Looks whether pages of transfers show these ids, and end so.
fn are_paged(
    rt: &impl Abort,
    alloc: Global,
    cases: &[(QueryFilter, &[u128], u64)],
) -> Result<(), Fail> {
    let mut firms = five_transfers(alloc)?;
    for (asked, want, next) in cases {
        let seen: QueryPage<Transfer> = firms.ledgers.query_transfers(alloc, &FIRM, asked)?;
        let ids: Vec<u128> = seen.entries.iter().map(|entry| entry.id).collect(alloc)?;
        same(rt, "the ids", ids.as_slice(), *want);
        same(rt, "the next page", seen.next, *next);
        same(rt, "the clock", seen.clock, 9);
    }
    Ok(())
}

#[test]
fn pages_of_transfers(rt: HostRuntime) -> Result<(), Fail> {
    let cases: [(QueryFilter, &[u128], u64); 5] = [
        (query(ANY, (0, 0), 2, OLDEST), &[100, 101], 7),
        (query(ANY, (7, 0), 2, OLDEST), &[102, 103], 9),
        (query(ANY, (9, 0), 2, OLDEST), &[104], 0),
        // Exactly at the limit: whether more lies behind is not looked at.
        (
            query(ANY, (0, 0), 5, OLDEST),
            &[100, 101, 102, 103, 104],
            10,
        ),
        (query(ANY, (10, 0), 5, OLDEST), &[], 0),
    ];
    are_paged(&rt, rt.alloc(), &cases)
}

#[test]
fn pages_of_the_newest_transfers(rt: HostRuntime) -> Result<(), Fail> {
    let cases: [(QueryFilter, &[u128], u64); 3] = [
        (query(ANY, (0, 0), 2, NEWEST), &[104, 103], 7),
        (query(ANY, (0, 7), 2, NEWEST), &[102, 101], 5),
        (query(ANY, (0, 5), 2, NEWEST), &[100], 0),
    ];
    are_paged(&rt, rt.alloc(), &cases)
}

#[test]
fn pages_by_bounds_and_tags(rt: HostRuntime) -> Result<(), Fail> {
    let other = Tags { ledger: 8, ..ANY };
    let cases: [(QueryFilter, &[u128], u64); 5] = [
        (query(ANY, (6, 8), 5, OLDEST), &[101, 102, 103], 0),
        // The minimum is above the maximum.
        (query(ANY, (8, 7), 5, OLDEST), &[], 0),
        (query(INVOICE, (0, 0), 2, OLDEST), &[102], 0),
        (query(INVOICE, (0, 0), 1, OLDEST), &[102], 8),
        (query(other, (0, 0), 5, OLDEST), &[], 0),
    ];
    are_paged(&rt, rt.alloc(), &cases)
}

#[test]
fn pages_of_accounts(rt: HostRuntime) -> Result<(), Fail> {
    let mut firms = five_transfers(rt.alloc())?;
    let asked = query(ANY, (2, 0), 2, OLDEST);
    let seen: QueryPage<AccountWithBalances> = firms
        .ledgers
        .query_accounts(rt.alloc(), &FIRM, &asked)?;
    let ids: Vec<u128> = seen
        .entries
        .iter()
        .map(|entry| entry.account.id)
        .collect(rt.alloc())?;
    same(&rt, "the ids", ids.as_slice(), [2, 3].as_slice());
    same(&rt, "the next page", seen.next, 4);
    let credits: Vec<u128> = seen
        .entries
        .iter()
        .map(|entry| entry.balances.credits.posted.value())
        .collect(rt.alloc())?;
    // What 101, 102 and 104 brought.
    same(
        &rt,
        "posted credits",
        credits.as_slice(),
        [19, 0].as_slice(),
    );
    let newest = query(ANY, (0, 0), 4, NEWEST);
    let seen = firms.ledgers.query_accounts(rt.alloc(), &FIRM, &newest)?;
    same(&rt, "how many", seen.entries.len(), 4);
    same(&rt, "the next page", seen.next, 0);
    Ok(())
}

fn hold(id: u128, timestamp: u64, state: PendingState) -> Hold {
    Hold {
        id,
        timestamp,
        due: 0,
        state,
    }
}

#[test]
fn holds_and_what_became_of_them(rt: HostRuntime) -> Result<(), Fail> {
    let mut firms = five_transfers(rt.alloc())?;
    firms.send(0, &[post(105, 100, 40)])?;
    let open = hold(103, 8, PendingState::Open);
    let posted = hold(100, 5, PendingState::Posted);
    let asked = query(ANY, (0, 0), 10, OLDEST).page;
    let seen = firms.ledgers.open_pending(rt.alloc(), &FIRM, &asked)?;
    same(
        &rt,
        "open holds",
        seen.entries.as_slice(),
        [open].as_slice(),
    );
    same(&rt, "the next page", seen.next, 0);
    let found = firms
        .ledgers
        .lookup_pending(rt.alloc(), &FIRM, &[103, 101, 9, 100, 103])?;
    let want = [open, posted, open];
    same(&rt, "holds", found.entries.as_slice(), want.as_slice());
    Ok(())
}

#[test]
fn nobody_is_asked(rt: HostRuntime) -> Result<(), Fail> {
    let mut firms = five_transfers(rt.alloc())?;
    let asked = query(ANY, (0, 0), 2, OLDEST);
    let told = firms.ledgers.query_transfers(rt.alloc(), &NOBODY, &asked);
    same(&rt, "a query", told.err(), Some(ReadFault::UnknownKey));
    Ok(())
}
