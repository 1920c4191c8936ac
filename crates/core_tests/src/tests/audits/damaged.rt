//! Worked ledgers with damage, and what is told of them.

use super::worked_rows::{Sample, posted_in_part};
use crate::tests::cells::column;
use Cell::*;

/// A cell that has this in place of what it had.
#[derive(Clone, Copy)]
pub(crate) enum Cell {
    Clock(Option<i64>),
    /// Of account 3.
    LedgerOfThird(i64),
    /// Of the accounts 1 and 4.
    TimeOfFirst(i64),
    TimeOfLast(i64),
    /// Of transfer 101.
    Code(i64),
    Time(i64),
    AtClock(i64),
    Amount(u8),
    /// Of the sums of accounts 1 and 2.
    DebitsOfFirst(u8),
    CreditsOfSecond(u8),
    State(i64),
    Due(i64),
    /// Of the rows of account 2.
    HistoryCredits(u8),
    HistoryTime(i64),
    /// The first failed id.
    Failed(u8),
}

/// What is put into a ledger, the first version in which it is damaged then, the number of the kind
/// and the place.
pub(crate) static DAMAGES: [(&[Cell], u32, (u8, usize)); 16] = [
    // Cells that cannot be read.
    (&[Clock(None)], 1, (1, 0)),
    (&[Clock(Some(-7))], 1, (1, 0)),
    (&[LedgerOfThird(-7), Code(65536)], 1, (1, 1)),
    (&[HistoryTime(-6)], 2, (1, 3)),
    (&[Due(-1)], 2, (1, 0)),
    // Timestamps that are shared or 0, and entries that the machine refuses.
    (&[Time(4)], 1, (2, 1)),
    (&[TimeOfLast(2)], 1, (2, 1)),
    (&[TimeOfFirst(0)], 1, (2, 0)),
    (&[Amount(101)], 1, (3, 1)),
    (&[AtClock(6)], 1, (3, 1)),
    (&[TimeOfFirst(7)], 1, (3, 0)),
    // Rows that are derived from the entries.
    (&[DebitsOfFirst(41)], 2, (4, 0)),
    (&[State(0)], 2, (5, 0)),
    (&[State(4)], 2, (5, 0)),
    (&[Due(1)], 2, (5, 0)),
    (&[HistoryCredits(99)], 2, (6, 2)),
];

/// Several damages at once.
pub(crate) static AT_ONCE: [Cell; 7] = [
    Clock(Some(3)),
    Failed(101),
    HistoryCredits(99),
    State(0),
    CreditsOfSecond(41),
    Amount(101),
    Time(4),
];

/// How many of these are put into a ledger, and the first kind and its place, which are told.
pub(crate) static FIRST_OF: [(usize, (u8, usize)); 5] = [
    (2, (7, 0)),
    (3, (6, 2)),
    (5, (4, 1)),
    (6, (3, 1)),
    (7, (2, 1)),
];

/// The ledger of which a part is posted, with these cells.
pub(crate) fn damaged(cells: &[Cell]) -> Sample {
    let mut sample = posted_in_part();
    for cell in cells {
        match *cell {
            Clock(clock) => sample.clock = clock,
            LedgerOfThird(ledger) => sample.accounts[2].ledger = ledger,
            TimeOfFirst(time) => sample.accounts[0].timestamp = time,
            TimeOfLast(time) => sample.accounts[3].timestamp = time,
            Code(code) => sample.transfers[1].code = code,
            Time(time) => sample.transfers[1].timestamp = time,
            AtClock(clock) => sample.transfers[1].at_clock = clock,
            Amount(amount) => sample.transfers[1].amount = column(amount),
            DebitsOfFirst(sum) => sample.balances[0].dd = column(sum),
            CreditsOfSecond(sum) => sample.balances[1].cc = column(sum),
            State(state) => sample.statuses[0].state = state,
            Due(due) => sample.statuses[0].due = due,
            HistoryCredits(sum) => sample.history[2].cp = column(sum),
            HistoryTime(time) => sample.history[3].timestamp = time,
            Failed(id) => sample.failed = [Some(id), None, None],
        }
    }
    sample
}
