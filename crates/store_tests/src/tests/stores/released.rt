//! Holds of more accounts than are kept at once, which come due together.

use super::driven::Driven;
use super::events::{accounts, transfer};
use super::overdue::{NORTH, made, settle};
use crate::tests::disks::{Faulty, InMemory};
use crate::tests::works::{Looking, Opening};
use amount::Amount;
use records::{AccountEvent, TransferEvent};
use sqlite_disk::Disk;
use std::alloc::{AllocError, Global};
use std::process::Abort;
use std::test::Fail;

/// How many holds there are, each of two accounts of its own.
const HOLDS: u16 = 150;

/// When all of them are due, in nanoseconds.
const LATER: u64 = 3_000_000_000;

/// The accounts from 1 on, two for each hold. The first two are there already.
fn all_accounts(alloc: Global) -> Result<Vec<AccountEvent>, AllocError> {
    let mut all = Vec::new(alloc);
    let first = accounts(alloc, "1")?;
    for id in 1..=2 * HOLDS {
        if let Some(account) = first.first() {
            all.push(AccountEvent {
                id: u128::from(id),
                ..*account
            })?;
        }
    }
    Ok(all)
}

/// A hold for a second of each account up to the 150th, of as much as its id, for the one that is
/// 150 further. Before them stands one of 7 from account 1 to 2 that ends nowhere.
fn all_holds(alloc: Global) -> Result<Vec<TransferEvent>, AllocError> {
    let mut all = Vec::new(alloc);
    all.push(transfer("999: 1>2 7 pending"))?;
    for account in 1..=HOLDS {
        let mut hold = transfer("1>2 1 pending timeout=1");
        hold.id = 1000 + u128::from(account);
        hold.debit_account_id = u128::from(account);
        hold.credit_account_id = u128::from(HOLDS + account);
        hold.amount = Amount::new(u128::from(account));
        all.push(hold)?;
    }
    Ok(all)
}

/// A store in memory where North has these accounts and holds.
fn with_holds<D: Faulty>(alloc: Global) -> Result<Driven<D>, Fail> {
    let mut store = made::<D>(alloc)?;
    let accounts = all_accounts(alloc)?;
    let opening = Opening {
        alloc,
        accounts: accounts.as_slice(),
        moment: 0,
    };
    store.run(&NORTH, opening)?;
    settle(alloc, &mut store, &NORTH, all_holds(alloc)?.as_slice(), 0)?;
    Ok(store)
}

/// Whether each account has as much pending as is held of it, and nothing posted.
fn is_held<D: Disk + Drop>(store: &mut Driven<D>, is_released: bool) -> Result<bool, Fail> {
    for account in 1..=2 * HOLDS {
        let looking = Looking {
            account: u128::from(account),
        };
        let (sums, _, _) = store.run(&NORTH, looking)?;
        let [debits, credits] = held(account, is_released);
        if sums != Some([debits, 0, credits, 0]) {
            return Ok(false);
        }
    }
    Ok(true)
}

/// What is held of an account, before the others are released or behind that.
fn held(account: u16, is_released: bool) -> [u128; 2] {
    // By the hold that ends nowhere.
    let [debits, credits] = match account {
        1 => [7, 0],
        2 => [0, 7],
        _ => [0, 0],
    };
    if is_released {
        [debits, credits]
    } else if account <= HOLDS {
        [debits.saturating_add(u128::from(account)), credits]
    } else {
        [debits, credits.saturating_add(u128::from(account - HOLDS))]
    }
}

fn releases<D: Faulty>(rt: &impl Abort, alloc: Global) -> Result<(), Fail> {
    let mut store = with_holds::<D>(alloc)?;
    assert!(rt; is_held(&mut store, false)?);
    settle(alloc, &mut store, &NORTH, &[], LATER)?;
    assert!(rt; is_held(&mut store, true)?);
    Ok(())
}

#[test]
fn holds_of_three_hundred_accounts_are_released_at_once(rt: HostRuntime) -> Result<(), Fail> {
    releases::<InMemory>(&rt, rt.alloc())
}
