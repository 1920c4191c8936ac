//! Rows with distinct ids and times.

ghost use Rattle.std.specs.Prelude.{◌≡◌, Some};

use amount::Amount;
use records::{Account, AccountFlags, Balances, PendingState, Sums, Transfer, TransferFlags};
use rows::{BalanceRow, HistoryRow, StatusRow};

pub fn account(id: u128, time: u32) -> Account
    ensures { result.timestamp ≡ time }
{
    Account {
        id,
        user_data_128: id ^ 5,
        user_data_64: u64::MAX - u64::from(time),
        user_data_32: time,
        ledger: 978,
        code: 3,
        flags: AccountFlags(8),
        timestamp: u64::from(time),
    }
}

pub fn transfer(id: u128, time: u32) -> Transfer
    ensures timestamp { result.timestamp ≡ time }
    ensures at { result.at ≡ time }
{
    Transfer {
        id,
        debit_account_id: 1,
        credit_account_id: 2,
        amount: Amount::new(u128::from(time)),
        pending_id: id ^ 3,
        user_data_128: u128::MAX,
        user_data_64: 9,
        user_data_32: 0,
        timeout: 60,
        ledger: 978,
        code: 4,
        flags: TransferFlags(2),
        timestamp: u64::from(time),
        at: u64::from(time),
    }
}

fn balances(time: u32) -> Balances {
    Balances {
        debits: Sums {
            pending: Amount::new(u128::from(time)),
            posted: Amount::new(1),
        },
        credits: Sums {
            pending: Amount::new(u128::MAX),
            posted: Amount::new(0),
        },
    }
}

pub fn balance(account: u128, time: u32) -> BalanceRow {
    BalanceRow {
        account,
        balances: balances(time),
    }
}

pub fn status(transfer: u128, time: u32) -> StatusRow
    ensures { result.due ≡ Some time }
{
    let state = match time % 4 {
        0 => PendingState::Open,
        1 => PendingState::Posted,
        2 => PendingState::Voided,
        _ => PendingState::Expired,
    };
    StatusRow {
        transfer,
        state,
        due: Some(u64::from(time)),
    }
}

pub fn history(account: u128, time: u32) -> HistoryRow
    ensures { result.timestamp ≡ time }
{
    HistoryRow {
        account,
        timestamp: u64::from(time),
        balances: balances(time),
    }
}
