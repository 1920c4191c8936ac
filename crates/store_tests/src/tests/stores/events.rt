//! Events in the words of `docs/MODEL.md`.

use amount::Amount;
use records::{AccountEvent, AccountFlags, TransferEvent, TransferFlags};
use std::alloc::{AllocError, Global};

const NO_ACCOUNT: AccountEvent = AccountEvent {
    id: 0,
    debits_pending: Amount::ZERO,
    debits_posted: Amount::ZERO,
    credits_pending: Amount::ZERO,
    credits_posted: Amount::ZERO,
    user_data_128: 0,
    user_data_64: 0,
    user_data_32: 0,
    ledger: 7,
    code: 10,
    flags: AccountFlags(0),
    timestamp: 0,
};

const NO_TRANSFER: TransferEvent = TransferEvent {
    id: 0,
    debit_account_id: 0,
    credit_account_id: 0,
    amount: Amount::ZERO,
    pending_id: 0,
    user_data_128: 0,
    user_data_64: 0,
    user_data_32: 0,
    timeout: 0,
    ledger: 7,
    code: 1,
    flags: TransferFlags(0),
    timestamp: 0,
};

/// A number, of which `MAX` is the greatest.
pub fn number(word: &str) -> u128 {
    word.parse().unwrap_or(u128::MAX)
}

fn flags(word: &str) -> u16 {
    word.parse().unwrap_or(u16::MAX)
}

/// Reads accounts, as `1; 3 flags=10; 6 ledger=0`.
pub fn accounts(alloc: Global, text: &str) -> Result<Vec<AccountEvent>, AllocError> {
    let mut events = Vec::new(alloc);
    for words in text.split(';') {
        if !words.is_empty() {
            events.push(account(words))?;
        }
    }
    Ok(events)
}

/// Reads an account of ledger 7 and code 10.
fn account(words: &str) -> AccountEvent {
    let mut event = NO_ACCOUNT;
    for word in words.split_whitespace() {
        match word.split_once('=') {
            Some(("flags", value)) => event.flags = AccountFlags(flags(value)),
            Some(_) => event.ledger = 0,
            None => event.id = number(word),
        }
    }
    event
}

/// Reads transfers, as `100: 1>2 100 pending; 101: post=100 40`.
pub fn transfers(alloc: Global, text: &str) -> Result<Vec<TransferEvent>, AllocError> {
    let mut events = Vec::new(alloc);
    for words in text.split(';') {
        if !words.is_empty() {
            events.push(transfer(words))?;
        }
    }
    Ok(events)
}

/// Reads a transfer of ledger 7 and code 1, or the end of a pending one.
pub fn transfer(words: &str) -> TransferEvent {
    let mut event = NO_TRANSFER;
    for word in words.split_whitespace() {
        if let Some((id, _)) = word.split_once(':') {
            event.id = number(id);
        } else if let Some((debit, credit)) = word.split_once('>') {
            event.debit_account_id = number(debit);
            event.credit_account_id = number(credit);
        } else if let Some((key, value)) = word.split_once('=') {
            put(&mut event, key, value);
        } else {
            mark(&mut event, word);
        }
    }
    event
}

/// Puts a value into the event.
fn put(event: &mut TransferEvent, key: &str, value: &str) {
    match key {
        "post" => end(event, 4, value),
        "void" => end(event, 8, value),
        "timeout" => event.timeout = u32::from(flags(value)),
        _ => event.flags = TransferFlags(flags(value)),
    }
}

/// Makes an event the end of a pending transfer.
fn end(event: &mut TransferEvent, flag: u16, pending: &str) {
    event.pending_id = number(pending);
    event.flags = TransferFlags(flag);
    event.ledger = 0;
    event.code = 0;
}

/// Sets a flag of the event, or its amount.
fn mark(event: &mut TransferEvent, word: &str) {
    match word {
        "linked" => event.flags = TransferFlags(event.flags.0 | 1),
        "pending" => event.flags = TransferFlags(event.flags.0 | 2),
        _ => event.amount = Amount::new(number(word)),
    }
}

/// `1000: 1>3 1`, `1001: 1>3 1` and so on: transfers with the ids from a first one, before a last.
pub fn ones(alloc: Global, first: u64, last: u64) -> Result<Vec<TransferEvent>, AllocError> {
    let mut events = Vec::new(alloc);
    for id in first..last {
        events.push(TransferEvent {
            id: u128::from(id),
            debit_account_id: 1,
            credit_account_id: 3,
            amount: Amount::new(1),
            ..NO_TRANSFER
        })?;
    }
    Ok(events)
}
