use super::firms::{FIRM, Firms};
use crate::tests::asserting::same;
use amount::Amount;
use chain::{Ledgers, ReadFault};
use records::{
    Account, AccountFilter, AccountWithBalances, BalanceAt, FilterFlags, Order, Transfer,
    TransferFlags,
};
use samples::{BALANCING_DEBIT, PENDING, POST, balances, post, transfer, with};
use std::alloc::Global;
use std::process::Abort;
use std::test::Fail;

// The flags of a filter.
const DEBITS: u16 = 1;

const CREDITS: u16 = 2;

const BOTH_SIDES: u16 = 3;

const NEWEST_OF_BOTH_SIDES: u16 = 7;

const NO_ACCOUNT: Option<ReadFault> = Some(ReadFault::NoAccount);

// All that a filter of an account can ask for.
fn filter(account_id: u128, flags: u16, limit: u32) -> AccountFilter {
    AccountFilter {
        account_id,
        timestamp_min: 0,
        timestamp_max: 0,
        limit,
        flags: FilterFlags(flags),
    }
}

// `100: 1>2 100` pending, posted in part by 101.
pub(super) fn posted_in_part(alloc: Global) -> Result<Firms, Fail> {
    let transfers = [
        with(PENDING, transfer(100, (1, 2), 100)),
        post(101, 100, 40),
        post(102, 100, 60),
    ];
    Firms::after(alloc, &transfers)
}

// `100: 1>3 50`, `101: 3>2 20` and a balancing `102: 3>2`, each in a batch of its own.
fn balancing(alloc: Global) -> Result<Firms, Fail> {
    let mut firms = Firms::after(alloc, &[transfer(100, (1, 3), 50)])?;
    firms.send(0, &[transfer(101, (3, 2), 20)])?;
    let balancing = with(BALANCING_DEBIT, transfer(102, (3, 2), u128::MAX));
    firms.send(0, &[balancing])?;
    Ok(firms)
}

// The account with this id, opened at the timestamp of the same number.
fn with_balances(id: u64, debits: (u128, u128), credits: (u128, u128)) -> AccountWithBalances {
    AccountWithBalances {
        account: Account {
            id: id as u128,
            ledger: 7,
            code: 10,
            timestamp: id,
            ..Account::default()
        },
        balances: balances(debits, credits),
    }
}

#[test]
fn looks_up_accounts_in_the_order_asked(rt: HostRuntime) -> Result<(), Fail> {
    let mut firms = posted_in_part(rt.alloc())?;
    let found = firms
        .ledgers
        .lookup_accounts(rt.alloc(), &FIRM, &[2, 9, 1, 2])?;
    same(&rt, "the clock", found.clock, 7);
    let want = [
        with_balances(2, (0, 0), (0, 40)),
        with_balances(1, (0, 40), (0, 0)),
        with_balances(2, (0, 0), (0, 40)),
    ];
    same(&rt, "accounts", found.entries.as_slice(), want.as_slice());
    Ok(())
}

#[test]
fn looks_up_transfers_in_the_order_asked(rt: HostRuntime) -> Result<(), Fail> {
    let mut firms = posted_in_part(rt.alloc())?;
    let found = firms
        .ledgers
        .lookup_transfers(rt.alloc(), &FIRM, &[101, 9, 100])?;
    same(&rt, "the clock", found.clock, 7);
    let pending = Transfer {
        id: 100,
        debit_account_id: 1,
        credit_account_id: 2,
        amount: Amount::new(100),
        ledger: 7,
        code: 1,
        flags: TransferFlags(PENDING),
        timestamp: 5,
        at: 7,
        ..Transfer::default()
    };
    let posted = Transfer {
        id: 101,
        amount: Amount::new(40),
        pending_id: 100,
        flags: TransferFlags(POST),
        timestamp: 6,
        ..pending
    };
    let want = [posted, pending];
    same(&rt, "transfers", found.entries.as_slice(), want.as_slice());
    Ok(())
}

// Looks whether the transfers that filters ask for have these ids.
fn are_shown(
    rt: &impl Abort,
    alloc: Global,
    cases: &[(AccountFilter, &[u128])],
) -> Result<(), Fail> {
    let mut firms = balancing(alloc)?;
    for (asked, want) in cases {
        let found = firms.ledgers.history_transfers(alloc, &FIRM, asked)?;
        let ids: Vec<u128> = found.entries.iter().map(|entry| entry.id).collect(alloc)?;
        same(rt, "the ids", ids.as_slice(), *want);
    }
    Ok(())
}

#[test]
fn history_of_an_account(rt: HostRuntime) -> Result<(), Fail> {
    let cases: [(AccountFilter, &[u128]); 5] = [
        (filter(3, NEWEST_OF_BOTH_SIDES, 2), &[102, 101]),
        // Of this account no history is kept.
        (filter(1, BOTH_SIDES, 10), &[100]),
        (filter(3, DEBITS, 10), &[101, 102]),
        (filter(3, CREDITS, 10), &[100]),
        (filter(3, 0, 10), &[]),
    ];
    are_shown(&rt, rt.alloc(), &cases)
}

// All entries of account 3 between two timestamps, themselves included.
fn between(timestamp_min: u64, timestamp_max: u64) -> AccountFilter {
    AccountFilter {
        timestamp_min,
        timestamp_max,
        ..filter(3, BOTH_SIDES, 10)
    }
}

#[test]
fn history_between_two_timestamps(rt: HostRuntime) -> Result<(), Fail> {
    let cases: [(AccountFilter, &[u128]); 4] = [
        (between(6, 6), &[101]),
        (between(6, 0), &[101, 102]),
        (between(0, 6), &[100, 101]),
        (between(7, 6), &[]),
    ];
    are_shown(&rt, rt.alloc(), &cases)
}

fn balance_at(timestamp: u64, debits_posted: u128) -> BalanceAt {
    BalanceAt {
        timestamp,
        balances: balances((0, debits_posted), (0, 50)),
    }
}

#[test]
fn balances_after_each_entry(rt: HostRuntime) -> Result<(), Fail> {
    let asked = filter(3, BOTH_SIDES, 10);
    let mut firms = balancing(rt.alloc())?;
    let found = firms.ledgers.history_balances(rt.alloc(), &FIRM, &asked)?;
    same(&rt, "the clock", found.clock, 7);
    let want = [balance_at(5, 0), balance_at(6, 20), balance_at(7, 50)];
    same(&rt, "balances", found.entries.as_slice(), want.as_slice());
    Ok(())
}

#[test]
fn no_account_and_no_history(rt: HostRuntime) -> Result<(), Fail> {
    let alloc = rt.alloc();
    let mut firms = balancing(alloc)?;
    let ledgers = &mut firms.ledgers;
    let asked = filter(1, BOTH_SIDES, 10);
    let of_first = ledgers.history_balances(alloc, &FIRM, &asked).err();
    same(&rt, "balances of 1", of_first, Some(ReadFault::NoHistory));
    let asked = filter(9, BOTH_SIDES, 10);
    let history = ledgers.history_transfers(alloc, &FIRM, &asked).err();
    same(&rt, "a history of 9", history, NO_ACCOUNT);
    let balances = ledgers.history_balances(alloc, &FIRM, &asked).err();
    same(&rt, "balances of 9", balances, NO_ACCOUNT);
    let (told, rows) = firms.statement(&FIRM, 9, Order::Oldest, 10);
    same(&rt, "a statement of 9", told.err(), NO_ACCOUNT);
    same(&rt, "its rows", rows.len(), 0);
    Ok(())
}
