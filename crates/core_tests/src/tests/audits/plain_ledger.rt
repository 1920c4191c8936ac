//! The judgement of one entry beside the entries before it, by searches and sums.

use amount::Amount;
use engine::{AccountDecision, Decision, decide_account, decide_transfer};
use records::{
    Account, AccountEvent, AccountWithBalances, Balances, ExistingTransfer, PendingState,
    PendingTransfer, Side, Sums, Transfer, TransferEvent, TransferFacts,
};

pub(crate) const MAX_CLOCK: u64 = 1 << 62;

// The entries that were accepted so far, and the clock.
#[derive(Drop)]
pub(crate) struct Ledger {
    pub(crate) accounts: Vec<Account>,
    pub(crate) transfers: Vec<Transfer>,
    pub(crate) clock: u64,
}

pub(crate) fn opens(ledger: &Ledger, a: &Account) -> bool {
    let ev = AccountEvent {
        id: a.id,
        user_data_128: a.user_data_128,
        user_data_64: a.user_data_64,
        user_data_32: a.user_data_32,
        ledger: a.ledger,
        code: a.code,
        flags: a.flags,
        ..AccountEvent::default()
    };
    match decide_account(&account(ledger, a.id), &ev, a.timestamp) {
        AccountDecision::Accept(_) => true,
        AccountDecision::Refuse(_) => false,
    }
}

pub(crate) fn moves(ledger: &Ledger, t: &Transfer) -> bool {
    if t.at < t.timestamp || t.at - t.timestamp >= 1000 || t.at > MAX_CLOCK {
        return false;
    }
    let ev = TransferEvent {
        id: t.id,
        debit_account_id: t.debit_account_id,
        credit_account_id: t.credit_account_id,
        amount: t.amount,
        pending_id: t.pending_id,
        user_data_128: t.user_data_128,
        user_data_64: t.user_data_64,
        user_data_32: t.user_data_32,
        timeout: t.timeout,
        ledger: t.ledger,
        code: t.code,
        flags: t.flags,
        timestamp: 0,
    };
    match decide_transfer(&facts(ledger, &ev), &ev, t.timestamp, t.at) {
        Decision::Accept(accepted) => accepted.stored == *t,
        Decision::Refuse(_) => false,
    }
}

fn account(ledger: &Ledger, id: u128) -> Option<Account> {
    ledger.accounts.iter().find(|a| a.id == id).copied()
}

pub(crate) fn transfer(ledger: &Ledger, id: u128) -> Option<Transfer> {
    ledger.transfers.iter().find(|t| t.id == id).copied()
}

fn facts(ledger: &Ledger, ev: &TransferEvent) -> TransferFacts {
    let pending = named(ledger, ev);
    let debit = with_balances(ledger, account_id(Side::Debit, ev, &pending));
    let credit = with_balances(ledger, account_id(Side::Credit, ev, &pending));
    TransferFacts {
        existing: existing(ledger, ev.id),
        failed: false,
        pending,
        debit,
        credit,
    }
}

fn existing(ledger: &Ledger, id: u128) -> Option<ExistingTransfer> {
    let transfer = transfer(ledger, id)?;
    let pending_amount = ended_amount(ledger, &transfer);
    Some(ExistingTransfer {
        transfer,
        pending_amount,
    })
}

fn ended_amount(ledger: &Ledger, t: &Transfer) -> Amount {
    if !t.flags.is_post_or_void() {
        return t.amount;
    }
    match transfer(ledger, t.pending_id) {
        Some(pending) => pending.amount,
        None => t.amount,
    }
}

// The transfer that a post or void names, and what has become of it.
fn named(ledger: &Ledger, ev: &TransferEvent) -> Option<PendingTransfer> {
    if !ev.flags.is_post_or_void() {
        return None;
    }
    let named = transfer(ledger, ev.pending_id)?;
    let state = if named.flags.is_pending() {
        Some(fate(&ledger.transfers, u64::MAX, ledger.clock, &named))
    } else {
        None
    };
    Some(PendingTransfer {
        transfer: named,
        state,
    })
}

fn account_id(side: Side, ev: &TransferEvent, named: &Option<PendingTransfer>) -> Option<u128> {
    if ev.flags.is_post_or_void() {
        match named {
            Some(named) => Some(named.transfer.account_on(side)),
            None => None,
        }
    } else {
        match side {
            Side::Debit => Some(ev.debit_account_id),
            Side::Credit => Some(ev.credit_account_id),
        }
    }
}

fn with_balances(ledger: &Ledger, id: Option<u128>) -> Option<AccountWithBalances> {
    let account = account(ledger, id?)?;
    let balances = balances(&ledger.transfers, u64::MAX, ledger.clock, account.id);
    Some(AccountWithBalances { account, balances })
}

// What has become of a pending transfer, by the entries up to a time.
pub(crate) fn fate(entries: &[Transfer], until: u64, clock: u64, t: &Transfer) -> PendingState {
    let ends = |entry: &Transfer| entry.pending_id == t.id && entry.timestamp <= until;
    if entries.iter().any(|e| e.flags.is_post() && ends(e)) {
        return PendingState::Posted;
    }
    if entries.iter().any(|e| e.flags.is_void() && ends(e)) {
        return PendingState::Voided;
    }
    let due = t.timestamp as u128 + t.timeout as u128 * 1_000_000_000;
    if t.timeout > 0 && due <= clock as u128 {
        return PendingState::Expired;
    }
    PendingState::Open
}

pub(crate) fn balances(entries: &[Transfer], until: u64, clock: u64, id: u128) -> Balances {
    Balances {
        debits: sums(Side::Debit, entries, until, clock, id),
        credits: sums(Side::Credit, entries, until, clock, id),
    }
}

fn sums(side: Side, entries: &[Transfer], until: u64, clock: u64, id: u128) -> Sums {
    let mut pending: u128 = 0;
    let mut posted: u128 = 0;
    for entry in entries {
        let is_counted = entry.timestamp <= until && entry.account_on(side) == id;
        if !is_counted || entry.flags.is_void() {
            continue;
        }
        if !entry.flags.is_pending() {
            posted = posted.saturating_add(entry.amount.value());
        } else if fate(entries, until, clock, entry) == PendingState::Open {
            pending = pending.saturating_add(entry.amount.value());
        }
    }
    Sums {
        pending: Amount::new(pending),
        posted: Amount::new(posted),
    }
}

pub(crate) fn is_above<K: Copy + Ord>(last: Option<K>, key: K) -> bool {
    match last {
        Some(last) => last < key,
        None => true,
    }
}
