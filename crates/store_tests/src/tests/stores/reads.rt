//! What a store answers to reads, in words: the clock, and the entries.

use super::commands::{Command, Text, put_word, shown};
use super::driven::Driven;
use crate::tests::works::sums;
use chain::{Ledgers, Listed, ReadFault};
use records::{AccountWithBalances, BalanceAt, Order, Side, StatementRow, Transfer};
use sqlite_disk::Disk;
use std::alloc::Global;

/// What is listed, and how it is shown.
trait Entry {
    fn entry(&self, alloc: Global) -> Text;
}

/// Id, ledger, code, flags and timestamp, and the balances.
impl Entry for AccountWithBalances {
    fn entry(&self, alloc: Global) -> Text {
        let account = &self.account;
        let fields = [
            account.id,
            u128::from(account.ledger),
            u128::from(account.code),
            u128::from(account.flags.0),
            u128::from(account.timestamp),
        ];
        shown(alloc, &(fields, sums(&self.balances)))
    }
}

/// Id, accounts, amount, pending id, ledger, code, flags, timeout, timestamp and clock.
impl Entry for Transfer {
    fn entry(&self, alloc: Global) -> Text {
        let fields = [
            self.id,
            self.debit_account_id,
            self.credit_account_id,
            self.amount.value(),
            self.pending_id,
            u128::from(self.ledger),
            u128::from(self.code),
            u128::from(self.flags.0),
            u128::from(self.timeout),
            u128::from(self.timestamp),
            u128::from(self.at),
        ];
        shown(alloc, &fields)
    }
}

impl Entry for BalanceAt {
    fn entry(&self, alloc: Global) -> Text {
        shown(alloc, &(self.timestamp, sums(&self.balances)))
    }
}

/// What was listed, or the fault.
fn listed<T: Entry + Drop>(alloc: Global, found: Result<Listed<T>, ReadFault>) -> Text {
    let found = match found {
        Ok(found) => found,
        Err(fault) => return shown(alloc, &fault),
    };
    let mut text = format!(in alloc; "clock {}:", found.clock)?;
    for entry in found.entries.iter() {
        put_word(&mut text, entry.entry(alloc)?)?;
    }
    Ok(text)
}

/// The same, of each transfer its id alone.
fn ids_listed(alloc: Global, found: Result<Listed<Transfer>, ReadFault>) -> Text {
    let found = match found {
        Ok(found) => found,
        Err(fault) => return shown(alloc, &fault),
    };
    let mut text = format!(in alloc; "clock {}:", found.clock)?;
    for entry in found.entries.iter() {
        put_word(&mut text, shown(alloc, &entry.id)?)?;
    }
    Ok(text)
}

/// A line of a statement.
fn line(alloc: Global, row: &StatementRow) -> Text {
    let side = if row.side == Side::Debit {
        "debit"
    } else {
        "credit"
    };
    let [dp, dd, cp, cc] = sums(&row.balances);
    format!(in alloc;
        "{},{},{side},{:?},{},{dp},{dd},{cp},{cc}",
        row.timestamp,
        row.transfer_id,
        row.kind,
        row.amount.value()
    )
}

/// The rows of a statement that came, and its fault.
fn stated(alloc: Global, rows: &[StatementRow], ended: &Result<(), ReadFault>) -> Text {
    let mut text = shown(alloc, ended)?;
    for row in rows {
        put_word(&mut text, line(alloc, row)?)?;
    }
    Ok(text)
}

/// What a read answers.
pub fn read<D: Disk + Drop>(store: &mut Driven<D>, command: &Command<'_>) -> Text {
    let alloc = command.alloc;
    let digest = command.digest();
    let asked = command.filter();
    match command.verb {
        "account" | "transfer" => look_up(store, command),
        "history" => ids_listed(
            alloc,
            store.ledgers.history_transfers(alloc, &digest, &asked),
        ),
        "balances" => listed(
            alloc,
            store.ledgers.history_balances(alloc, &digest, &asked),
        ),
        _ => state(store, command),
    }
}

/// Accounts, or transfers, of ids.
fn look_up<D: Disk + Drop>(store: &mut Driven<D>, command: &Command<'_>) -> Text {
    let alloc = command.alloc;
    let digest = command.digest();
    let ids = command.ids()?;
    if command.verb == "account" {
        listed(alloc, store.ledgers.lookup_accounts(alloc, &digest, &ids))
    } else {
        listed(alloc, store.ledgers.lookup_transfers(alloc, &digest, &ids))
    }
}

/// A statement.
fn state<D: Disk + Drop>(store: &mut Driven<D>, command: &Command<'_>) -> Text {
    let alloc = command.alloc;
    let asked = command.filter();
    let order = if asked.flags.is_newest_first() {
        Order::Newest
    } else {
        Order::Oldest
    };
    let wanted = (asked.account_id, order, asked.limit as usize);
    let (rows, ended) = store.statement(alloc, &command.digest(), wanted);
    stated(alloc, &rows, &ended)
}
