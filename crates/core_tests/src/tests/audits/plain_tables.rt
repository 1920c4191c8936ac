//! The tables of a tenant beside the rows that the definitions prescribe, one after the other.

use super::plain_ledger::{Ledger, balances, fate, is_above};
use records::Transfer;
use rows::{BalanceRow, HistoryRow, StatusRow, TenantRows};

pub(crate) fn in_tables(version: u32, rows: &TenantRows, ledger: &Ledger) -> Option<(u8, usize)> {
    if let Some(place) = bad_balance(version, rows, ledger) {
        return Some((4, place));
    }
    if let Some(place) = bad_status(version, rows, ledger) {
        return Some((5, place));
    }
    let place = bad_history(version, rows, ledger)?;
    Some((6, place))
}

// Whether a key is above the last one, and below the least so far.
fn is_next<K: Copy + Ord>(last: Option<K>, key: K, least: Option<K>) -> bool {
    is_above(last, key)
        && match least {
            Some(least) => key < least,
            None => true,
        }
}

// The account with the least id above another.
fn next_account(ledger: &Ledger, last: Option<u128>) -> Option<u128> {
    let mut best = None;
    for account in &ledger.accounts {
        if is_next(last, account.id, best) {
            best = Some(account.id);
        }
    }
    best
}

fn bad_balance(version: u32, rows: &TenantRows, ledger: &Ledger) -> Option<usize> {
    let mut last = None;
    for place in 0..rows.balances.len().max(ledger.accounts.len()) {
        last = next_account(ledger, last);
        let wanted = match last {
            Some(account) if version >= 2 => Some(BalanceRow {
                account,
                balances: balances(&ledger.transfers, u64::MAX, ledger.clock, account),
            }),
            _ => None,
        };
        if rows.balances.get(place).map(|cells| cells.to_row()) != wanted {
            return Some(place);
        }
    }
    None
}

// The pending transfer with the least id above another.
fn next_pending(ledger: &Ledger, last: Option<u128>) -> Option<Transfer> {
    let mut least = None;
    let mut best = None;
    for t in &ledger.transfers {
        if t.flags.is_pending() && is_next(last, t.id, least) {
            least = Some(t.id);
            best = Some(*t);
        }
    }
    best
}

fn bad_status(version: u32, rows: &TenantRows, ledger: &Ledger) -> Option<usize> {
    let mut last = None;
    for place in 0..rows.statuses.len().max(ledger.transfers.len()) {
        let next = next_pending(ledger, last);
        let wanted = match &next {
            Some(t) if version >= 2 => Some(StatusRow {
                transfer: t.id,
                state: fate(&ledger.transfers, u64::MAX, ledger.clock, t),
                due: due_time(t),
            }),
            _ => None,
        };
        if rows.statuses.get(place).map(|cells| cells.to_row()) != wanted.map(Some) {
            return Some(place);
        }
        if let Some(t) = &next {
            last = Some(t.id);
        }
    }
    None
}

fn due_time(t: &Transfer) -> Option<u64> {
    if t.timeout == 0 {
        return None;
    }
    Some(t.timestamp.saturating_add(t.timeout as u64 * 1_000_000_000))
}

// The side of an entry with the least account and timestamp above others: the account, that
// timestamp, and the clock of the entry.
fn next_side(ledger: &Ledger, last: Option<(u128, u64)>) -> Option<(u128, u64, u64)> {
    let mut least = None;
    let mut best = None;
    for t in &ledger.transfers {
        for account in [t.debit_account_id, t.credit_account_id] {
            let key = (account, t.timestamp);
            if is_next(last, key, least) {
                least = Some(key);
                best = Some((account, t.timestamp, t.at));
            }
        }
    }
    best
}

fn bad_history(version: u32, rows: &TenantRows, ledger: &Ledger) -> Option<usize> {
    let mut last = None;
    let sides = ledger.transfers.len().saturating_mul(2);
    for place in 0..rows.history.len().max(sides) {
        let next = next_side(ledger, last);
        let wanted = match next {
            Some((account, timestamp, at)) if version >= 2 => Some(HistoryRow {
                account,
                timestamp,
                balances: balances(&ledger.transfers, timestamp, at, account),
            }),
            _ => None,
        };
        if rows.history.get(place).map(|cells| cells.to_row()) != wanted.map(Some) {
            return Some(place);
        }
        if let Some((account, timestamp, _)) = next {
            last = Some((account, timestamp));
        }
    }
    None
}
