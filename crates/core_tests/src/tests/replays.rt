//! A tenant in ordered maps, out of its entries.

use crate::tests::asserting::{displays, same};
use amount::Amount;
use records::{Account, Balances, PendingState, Side, Sums, Transfer, TransferFlags};
use rows::{BalanceRow, HistoryRow, StatusRow};
use running::{Entry, ReplayFault, Running, replay};
use std::alloc::{AllocError, Global};
use std::process::Abort;

// When a timeout of a second ends that began at 5.
const A_SECOND_LATER: u64 = 1_000_000_005;

// An account of ledger 7 and code 10.
fn account(id: u128, timestamp: u64) -> Account {
    Account {
        id,
        ledger: 7,
        code: 10,
        timestamp,
        ..Account::default()
    }
}

// Transfer 100 from account 1 to account 2, pending, at 5.
fn pending(timeout: u32) -> Transfer {
    Transfer {
        id: 100,
        debit_account_id: 1,
        credit_account_id: 2,
        amount: Amount::new(100),
        timeout,
        ledger: 7,
        code: 1,
        flags: TransferFlags(2),
        timestamp: 5,
        at: 5,
        ..Transfer::default()
    }
}

// Transfer 101, which posts a part of it, at 6.
fn post(amount: u128) -> Transfer {
    Transfer {
        id: 101,
        amount: Amount::new(amount),
        pending_id: 100,
        timeout: 0,
        flags: TransferFlags(4),
        timestamp: 6,
        at: 6,
        ..pending(0)
    }
}

fn on(side: Side, pending: u128, posted: u128) -> Balances {
    let sums = Sums {
        pending: Amount::new(pending),
        posted: Amount::new(posted),
    };
    Balances::ZERO.with_sums(side, sums)
}

fn posted_in_part(amount: u128) -> [Entry; 4] {
    [
        Entry::Opened(account(1, 1)),
        Entry::Opened(account(2, 2)),
        Entry::Moved(pending(0)),
        Entry::Moved(post(amount)),
    ]
}

// The rows that are derived from entries: right after the last one, or a second later.
fn replayed(
    rt: &impl Abort,
    alloc: Global,
    entries: &[Entry],
    is_later: bool,
) -> Result<(Vec<BalanceRow>, Vec<StatusRow>, Vec<HistoryRow>), ReplayFault> {
    let mut history = Vec::new(alloc);
    let mut running = replay(alloc, entries, &mut history)?;
    if is_later {
        assert!(rt; running.clock() <= A_SECOND_LATER);
        running.settle_to(A_SECOND_LATER)?;
    }
    Ok((
        running.balance_rows(alloc)?,
        running.status_rows(alloc)?,
        history,
    ))
}

// 40 of 100 are posted: nothing is pending any more, and the history has both entries twice.
#[test]
fn a_part_is_posted(rt: HostRuntime) -> Result<(), ReplayFault> {
    let entries = posted_in_part(40);
    let (balances, statuses, history) = replayed(&rt, rt.alloc(), &entries, false)?;
    let want = [
        balance(1, on(Side::Debit, 0, 40)),
        balance(2, on(Side::Credit, 0, 40)),
    ];
    same(&rt, "balances", balances.as_slice(), want.as_slice());
    let want = [status(PendingState::Posted, None)];
    same(&rt, "statuses", statuses.as_slice(), want.as_slice());
    let want = [
        told(1, 5, on(Side::Debit, 100, 0)),
        told(2, 5, on(Side::Credit, 100, 0)),
        told(1, 6, on(Side::Debit, 0, 40)),
        told(2, 6, on(Side::Credit, 0, 40)),
    ];
    same(&rt, "history", history.as_slice(), want.as_slice());
    Ok(())
}

// More than is pending is not posted.
#[test]
fn the_first_that_is_not_accepted(rt: HostRuntime) {
    for (amount, want) in [(101, Some(3)), (40, None)] {
        let told = refused_at(rt.alloc(), posted_in_part(amount).as_slice());
        same(&rt, "posted in part", told, want);
    }
}

// Nor does an entry come twice, or one at no time.
#[test]
fn accounts_that_are_not_accepted(rt: HostRuntime) {
    for (case, second, want) in [
        ("an id twice", account(1, 2), 1),
        ("a shared timestamp", account(2, 1), 1),
    ] {
        let entries = [Entry::Opened(account(1, 1)), Entry::Opened(second)];
        same(&rt, case, refused_at(rt.alloc(), &entries), Some(want));
    }
    let at_zero = [Entry::Opened(account(1, 0))];
    same(&rt, "at 0", refused_at(rt.alloc(), &at_zero), Some(0));
}

#[test]
fn a_pending_transfer_expires(rt: HostRuntime) -> Result<(), ReplayFault> {
    let entries = [
        Entry::Opened(account(1, 1)),
        Entry::Opened(account(2, 2)),
        Entry::Moved(pending(1)),
    ];
    let (balances, statuses, history) = replayed(&rt, rt.alloc(), &entries, true)?;
    let want = [balance(1, Balances::ZERO), balance(2, Balances::ZERO)];
    same(&rt, "balances", balances.as_slice(), want.as_slice());
    let want = [status(PendingState::Expired, Some(A_SECOND_LATER))];
    same(&rt, "statuses", statuses.as_slice(), want.as_slice());
    same(&rt, "history", history.len(), 2);
    Ok(())
}

#[test]
fn prints_why_entries_are_not_replayed(rt: HostRuntime) -> Result<(), AllocError> {
    for (fault, text) in [
        (ReplayFault::Refused(3), "entry 3 is not accepted"),
        (ReplayFault::Memory, "out of memory"),
    ] {
        displays(&rt, rt.alloc(), &fault, text)?;
    }
    Ok(())
}

fn balance(account: u128, balances: Balances) -> BalanceRow {
    BalanceRow { account, balances }
}

// What transfer 100 has come to.
fn status(state: PendingState, due: Option<u64>) -> StatusRow {
    StatusRow {
        transfer: 100,
        state,
        due,
    }
}

fn told(account: u128, timestamp: u64, balances: Balances) -> HistoryRow {
    HistoryRow {
        account,
        timestamp,
        balances,
    }
}

fn refused_at(alloc: Global, entries: &[Entry]) -> Option<usize> {
    match replay(alloc, entries, &mut Vec::new(alloc)) {
        Err(ReplayFault::Refused(place)) => Some(place),
        _ => None,
    }
}
