//! The audit of one tenant by the definitions alone: lists that are searched and summed anew for
//! each row. It keeps no map and sorts nothing.

use super::plain_ledger::{Ledger, MAX_CLOCK, is_above, moves, opens, transfer};
use super::plain_tables::in_tables;
use records::{Account, Transfer};
use rows::TenantRows;
use std::alloc::{AllocError, Global};

#[derive(Clone, Copy)]
enum Next {
    Opened(Account, usize),
    Moved(Transfer, usize),
}

/// The number of the kind and the place of the first damage.
pub(crate) fn plain_find(
    alloc: Global,
    version: u32,
    rows: &TenantRows,
) -> Result<Option<(u8, usize)>, AllocError> {
    if let Some(place) = misshapen(rows) {
        return Ok(Some((1, place)));
    }
    if let Some(place) = bad_time(rows) {
        return Ok(Some((2, place)));
    }
    let mut ledger = Ledger {
        accounts: Vec::new(alloc),
        transfers: Vec::new(alloc),
        clock: 0,
    };
    if let Some(place) = first_refused(rows, &mut ledger)? {
        return Ok(Some((3, place)));
    }
    let clock = rows.clocks.first().copied().unwrap_or(0).unsigned_abs();
    let came = ledger.clock <= clock && clock <= MAX_CLOCK;
    if came {
        ledger.clock = clock;
    }
    if let Some(found) = in_tables(version, rows, &ledger) {
        return Ok(Some(found));
    }
    if !came {
        return Ok(Some((7, 0)));
    }
    if let Some(place) = bad_failed(version, rows, &ledger) {
        return Ok(Some((8, place)));
    }
    Ok(None)
}

fn first_refused(rows: &TenantRows, ledger: &mut Ledger) -> Result<Option<usize>, AllocError> {
    let mut last = 0;
    for _ in 0..rows.accounts.len().saturating_add(rows.transfers.len()) {
        match next_after(rows, last) {
            Some(next) => {
                last = time(&next);
                if let Some(place) = refused(ledger, &next)? {
                    return Ok(Some(place));
                }
            }
            None => return Ok(None),
        }
    }
    Ok(None)
}

fn least(a: Option<usize>, b: Option<usize>) -> Option<usize> {
    match (a, b) {
        (Some(a), Some(b)) => Some(a.min(b)),
        (None, b) => b,
        (a, None) => a,
    }
}

fn misshapen(rows: &TenantRows) -> Option<usize> {
    let clock = match rows.clocks.as_slice() {
        [clock] if 0 <= *clock => None,
        _ => Some(0),
    };
    let accounts = rows.accounts.iter().position(|c| c.to_account().is_none());
    let transfers = rows
        .transfers
        .iter()
        .position(|c| c.to_transfer().is_none());
    let statuses = rows.statuses.iter().position(|c| c.state < 0 || c.due < 0);
    let history = rows.history.iter().position(|c| c.timestamp < 0);
    least(
        clock,
        least(least(accounts, transfers), least(statuses, history)),
    )
}

fn bad_time(rows: &TenantRows) -> Option<usize> {
    let opened = |time: i64| rows.accounts.iter().filter(|c| c.timestamp == time).count();
    let moved = |time: i64| {
        rows.transfers
            .iter()
            .filter(|c| c.timestamp == time)
            .count()
    };
    let accounts = rows
        .accounts
        .iter()
        .position(|c| c.timestamp == 0 || opened(c.timestamp) > 1);
    let transfers = rows.transfers.iter().position(|c| {
        c.timestamp == 0 || opened(c.timestamp) > 0 || moved(c.timestamp) > 1
    });
    least(accounts, transfers)
}

fn time(next: &Next) -> u64 {
    match next {
        Next::Opened(account, _) => account.timestamp,
        Next::Moved(transfer, _) => transfer.timestamp,
    }
}

// The first entry behind a time.
fn next_after(rows: &TenantRows, last: u64) -> Option<Next> {
    let mut best: Option<Next> = None;
    for (place, cells) in rows.accounts.iter().enumerate() {
        if let Some(account) = cells.to_account() {
            best = earlier(best, Next::Opened(account, place), last);
        }
    }
    for (place, cells) in rows.transfers.iter().enumerate() {
        if let Some(transfer) = cells.to_transfer() {
            best = earlier(best, Next::Moved(transfer, place), last);
        }
    }
    best
}

fn earlier(best: Option<Next>, next: Next, last: u64) -> Option<Next> {
    match best {
        _ if time(&next) <= last => best,
        Some(best) if time(&best) <= time(&next) => Some(best),
        _ => Some(next),
    }
}

// The place of an entry that is not accepted; one that is, is kept.
fn refused(ledger: &mut Ledger, next: &Next) -> Result<Option<usize>, AllocError> {
    match next {
        Next::Opened(account, place) => {
            let clock = ledger.clock.max(account.timestamp);
            if clock > MAX_CLOCK || clock - account.timestamp >= 1000 || !opens(ledger, account) {
                return Ok(Some(*place));
            }
            ledger.clock = clock;
            ledger.accounts.push(*account)?;
        }
        Next::Moved(transfer, place) => {
            if transfer.at < ledger.clock {
                return Ok(Some(*place));
            }
            ledger.clock = transfer.at;
            if !moves(ledger, transfer) {
                return Ok(Some(*place));
            }
            ledger.transfers.push(*transfer)?;
        }
    }
    Ok(None)
}

fn bad_failed(version: u32, rows: &TenantRows, ledger: &Ledger) -> Option<usize> {
    let mut last = None;
    for (place, column) in rows.failed.iter().enumerate() {
        let id = u128::from_be_bytes(*column);
        let can_fail = 0 < id && id < u128::MAX && transfer(ledger, id).is_none();
        if version < 3 || !can_fail || !is_above(last, id) {
            return Some(place);
        }
        last = Some(id);
    }
    None
}
