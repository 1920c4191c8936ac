//! A line of a statement, before it is written in a form.
ghost use Rattle.std.specs.Prelude.{◌≡◌};
ghost use Rattle.statement.specs.Lines.{closing_line, entry_line, opening_line};

use crate::details::Details;
use crate::line_kind::LineKind;
use amount::Amount;
use records::{Balances, StatementRow};

/// What a line tells. A line that is no entry has 0 for each number but the sums.
#[derive(Clone, Copy, Debug, PartialEq, Eq)]
pub(crate) struct Line {
    pub kind: LineKind,
    pub timestamp: u64,
    pub transfer_id: u128,
    pub amount: Amount,
    pub balances: Balances,
    pub details: Details,
}

impl Line {
    /// The line of an entry.
    pub(crate) fn entry(row: &StatementRow, details: Details) -> Line
        ensures { result ≡ entry_line row.now details }
    {
        Line {
            kind: LineKind::Entry(row.side, row.kind),
            timestamp: row.timestamp,
            transfer_id: row.transfer_id,
            amount: row.amount,
            balances: row.balances,
            details,
        }
    }

    /// The line of the sums before a period.
    pub(crate) fn opening(balances: Balances) -> Line
        ensures { result ≡ opening_line balances }
    {
        Line {
            kind: LineKind::Opening,
            timestamp: 0,
            transfer_id: 0,
            amount: Amount::ZERO,
            balances,
            details: Details::NONE,
        }
    }

    /// The line of those at its end.
    pub(crate) fn closing(balances: Balances) -> Line
        ensures { result ≡ closing_line balances }
    {
        Line {
            kind: LineKind::Closing,
            ..Line::opening(balances)
        }
    }
}
