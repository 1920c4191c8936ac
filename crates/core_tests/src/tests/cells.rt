//! The cells of worked rows.

use rows::{AccountCells, TransferCells};

/// The column of a number below 256.
pub(crate) fn column(digit: u8) -> [u8; 16] {
    let mut bytes = [0; 16];
    bytes[15] = digit;
    bytes
}

/// An account of ledger 7 and code 10.
pub(crate) fn account(id: u8, flags: i64, timestamp: i64) -> AccountCells {
    AccountCells {
        id: column(id),
        user_data_128: [0; 16],
        user_data_64: [0; 8],
        user_data_32: 0,
        ledger: 7,
        code: 10,
        flags,
        timestamp,
    }
}

/// A transfer from account 1 to account 2, in the batch with the clock 7.
pub(crate) fn transfer(
    id: u8,
    pending: u8,
    amount: u8,
    flags: i64,
    timestamp: i64,
) -> TransferCells {
    TransferCells {
        id: column(id),
        debit: column(1),
        credit: column(2),
        amount: column(amount),
        pending_id: column(pending),
        user_data_128: [0; 16],
        user_data_64: [0; 8],
        user_data_32: 0,
        timeout: 0,
        ledger: 7,
        code: 1,
        flags,
        timestamp,
        at_clock: 7,
    }
}
