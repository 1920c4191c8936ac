//! Accounts and transfers of ledger 7, and what goes with them in the tables.

ghost use Rattle.std.specs.Prelude.{◌≡◌, ◌+◌};

use amount::Amount;
use records::{Account, AccountFlags, Balances, PendingState, Sums, Transfer, TransferFlags};
use rows::{BalanceRow, HistoryRow, StatusRow};

/// An account. Account 3 has the flags 10.
pub fn account(id: u128, timestamp: u32, code: u16) -> Account
    ensures { result.timestamp ≡ timestamp }
{
    Account {
        id,
        user_data_128: 0,
        user_data_64: 0,
        user_data_32: 0,
        ledger: 7,
        code,
        flags: AccountFlags(if id == 3 { 10 } else { 0 }),
        timestamp: u64::from(timestamp),
    }
}

/// Sums in the order of the columns.
fn balances(columns: [u32; 4]) -> Balances {
    let [dp, dd, cp, cc] = columns;
    Balances {
        debits: sums(dp, dd),
        credits: sums(cp, cc),
    }
}

fn sums(pending: u32, posted: u32) -> Sums {
    Sums {
        pending: Amount::new(u128::from(pending)),
        posted: Amount::new(u128::from(posted)),
    }
}

pub fn balance(account: u128, columns: [u32; 4]) -> BalanceRow {
    BalanceRow {
        account,
        balances: balances(columns),
    }
}

/// A pending transfer of 100 from account 1 to account 2, with a timeout of a second.
pub fn pending(id: u128, timestamp: u32) -> Transfer
    ensures timestamp { result.timestamp ≡ timestamp }
    ensures at { result.at ≡ timestamp }
{
    Transfer {
        id,
        debit_account_id: 1,
        credit_account_id: 2,
        amount: Amount::new(100),
        pending_id: 0,
        user_data_128: 0,
        user_data_64: 0,
        user_data_32: 0,
        timeout: 1,
        ledger: 7,
        code: 1,
        flags: TransferFlags(2),
        timestamp: u64::from(timestamp),
        at: u64::from(timestamp),
    }
}

/// A post of transfer 100 at its whole amount.
pub fn post() -> Transfer
    ensures timestamp { result.timestamp ≡ 1000000004 }
    ensures at { result.at ≡ 1000000004 }
{
    Transfer {
        pending_id: 100,
        timeout: 0,
        flags: TransferFlags(4),
        ..pending(101, 1_000_000_004)
    }
}

/// What has become of the pending transfer that has this timestamp.
pub fn status(transfer: u128, state: PendingState, timestamp: u32) -> StatusRow
    ensures { result.due ≡ Some (timestamp + 1000000000) }
{
    StatusRow {
        transfer,
        state,
        due: Some(u64::from(timestamp) + 1_000_000_000),
    }
}

pub fn history(account: u128, timestamp: u32, columns: [u32; 4]) -> HistoryRow
    ensures { result.timestamp ≡ timestamp }
{
    HistoryRow {
        account,
        timestamp: u64::from(timestamp),
        balances: balances(columns),
    }
}
