//! The rows of worked ledgers, cell by cell.

use crate::tests::cells::{account, column, transfer};
use rows::{
    AccountCells, BalanceCells, HistoryCells, StatusCells, TenantOfDigest, TenantRows,
    TransferCells,
};
use std::alloc::{AllocError, Global};

/// The rows of a tenant with four accounts and two transfers.
#[derive(Clone, Copy)]
pub(crate) struct Sample {
    pub(crate) clock: Option<i64>,
    pub(crate) accounts: [AccountCells; 4],
    pub(crate) transfers: [TransferCells; 2],
    pub(crate) balances: [BalanceCells; 4],
    pub(crate) statuses: [StatusCells; 1],
    pub(crate) history: [HistoryCells; 4],
    pub(crate) failed: [Option<u8>; 3],
}

/// 40 of a pending 100 is posted, after four accounts are opened.
pub(crate) fn posted_in_part() -> Sample {
    Sample {
        clock: Some(7),
        accounts: [
            account(1, 0, 1),
            account(2, 0, 2),
            account(3, 10, 3),
            account(4, 0, 4),
        ],
        transfers: [transfer(100, 0, 100, 2, 5), transfer(101, 100, 40, 4, 6)],
        balances: [
            balance(1, [0, 40, 0, 0]),
            balance(2, [0, 0, 0, 40]),
            balance(3, [0, 0, 0, 0]),
            balance(4, [0, 0, 0, 0]),
        ],
        statuses: [StatusCells {
            transfer: column(100),
            state: 1,
            due: 0,
        }],
        history: [
            history(1, 5, [100, 0, 0, 0]),
            history(1, 6, [0, 40, 0, 0]),
            history(2, 5, [0, 0, 100, 0]),
            history(2, 6, [0, 0, 0, 40]),
        ],
        failed: [None; 3],
    }
}

/// A pending 100 has expired when 30 more are moved, a second later.
pub(crate) fn expired() -> Sample {
    let late = 1_000_000_010;
    let sample = posted_in_part();
    Sample {
        clock: Some(late),
        transfers: [
            TransferCells {
                timeout: 1,
                at_clock: 5,
                ..transfer(100, 0, 100, 2, 5)
            },
            TransferCells {
                at_clock: late,
                ..transfer(101, 0, 30, 0, late)
            },
        ],
        balances: [
            balance(1, [0, 30, 0, 0]),
            balance(2, [0, 0, 0, 30]),
            balance(3, [0, 0, 0, 0]),
            balance(4, [0, 0, 0, 0]),
        ],
        statuses: [StatusCells {
            transfer: column(100),
            state: 3,
            due: 1_000_000_005,
        }],
        history: [
            history(1, 5, [100, 0, 0, 0]),
            history(1, late, [0, 30, 0, 0]),
            history(2, 5, [0, 0, 100, 0]),
            history(2, late, [0, 0, 0, 30]),
        ],
        ..sample
    }
}

// Debits pending and posted, credits pending and posted.
fn balance(account: u8, sums: [u8; 4]) -> BalanceCells {
    BalanceCells {
        account: column(account),
        dp: column(sums[0]),
        dd: column(sums[1]),
        cp: column(sums[2]),
        cc: column(sums[3]),
    }
}

fn history(account: u8, timestamp: i64, sums: [u8; 4]) -> HistoryCells {
    HistoryCells {
        account: column(account),
        timestamp,
        dp: column(sums[0]),
        dd: column(sums[1]),
        cp: column(sums[2]),
        cc: column(sums[3]),
    }
}

/// The rows of a tenant in this version of the schema.
pub(crate) fn tenant(
    alloc: Global,
    version: u32,
    first_byte: u8,
    sample: &Sample,
) -> Result<TenantOfDigest, AllocError> {
    let mut rows = no_rows(alloc);
    if let Some(clock) = sample.clock {
        rows.clocks.push(clock)?;
    }
    rows.accounts.extend_from_slice(&sample.accounts)?;
    rows.transfers.extend_from_slice(&sample.transfers)?;
    for id in sample.failed.iter().flatten() {
        rows.failed.push(column(*id))?;
    }
    // The rows that the entries lead to.
    if version >= 2 {
        rows.balances.extend_from_slice(&sample.balances)?;
        rows.statuses.extend_from_slice(&sample.statuses)?;
        rows.history.extend_from_slice(&sample.history)?;
    }
    let mut digest = [0; 32];
    digest[0] = first_byte;
    Ok(TenantOfDigest { digest, rows })
}

/// No rows in any table.
pub(crate) fn no_rows(alloc: Global) -> TenantRows {
    TenantRows {
        clocks: Vec::new(alloc),
        accounts: Vec::new(alloc),
        transfers: Vec::new(alloc),
        balances: Vec::new(alloc),
        statuses: Vec::new(alloc),
        history: Vec::new(alloc),
        failed: Vec::new(alloc),
    }
}
