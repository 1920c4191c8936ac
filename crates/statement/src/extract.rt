ghost use Rattle.std.specs.Prelude.{◌≡◌, map, reverse, IfOk, Ok};
ghost use Rattle.statement.specs.Extract.{Keeps, IsEmptyOver, RefusesEntry};
ghost use Rattle.statement.specs.Extract.{closing_of, kept_of, opening_of};

use crate::Period;
use records::{Balances, Order, RowSink, SinkFault, StatementRow};
use std::alloc::{AllocError, Global};

/// What of a statement lies in a period, oldest entry first until it is turned, and the sums before
/// the period and at its end.
#[derive(Drop)]
pub struct Extract {
    period: Period,
    opening: Balances,
    closing: Balances,
    rows: Vec<StatementRow>,
}

impl Extract {
    /// Of no entries yet.
    pub fn new(alloc: Global, period: Period) -> Self
        ensures empty { IsEmptyOver period result }
    {
        Extract {
            period,
            opening: Balances::ZERO,
            closing: Balances::ZERO,
            rows: Vec::new(alloc),
        }
    }

    /// The entries in the period.
    pub fn rows(&self) -> &[StatementRow]
        ensures { result.now ≡ kept_of self.now }
    {
        self.rows.as_slice()
    }

    /// The sums before the period.
    pub fn opening(&self) -> Balances
        ensures { result ≡ opening_of self.now }
    {
        self.opening
    }

    /// The sums at its end.
    pub fn closing(&self) -> Balances
        ensures { result ≡ closing_of self.now }
    {
        self.closing
    }

    /// Turns the entries, so that the newest comes first.
    pub fn turn(&mut self)
        ensures rows { kept_of self.new ≡ reverse (kept_of self.old) }
        ensures opening { opening_of self.new ≡ opening_of self.old }
        ensures closing { closing_of self.new ≡ closing_of self.old }
    {
        self.rows.reverse();
    }

    /// The ids of the entries' transfers.
    pub fn ids(&self, alloc: Global) -> Result<Vec<u128>, AllocError>
        ensures { IfOk result (λ ids. ids.items ≡ map (λ row. row.transfer_id) (kept_of self.now)) }
    {
        let mut ids = Vec::with_capacity(alloc, self.rows.len())?;
        for row in &self.rows {
            ids.push(row.transfer_id)?;
        }
        Ok(ids)
    }
}

impl RowSink for Extract {
    ghost takes = { Keeps };

    ghost refuses = { RefusesEntry };

    fn row(&mut self, row: &StatementRow) -> Result<(), SinkFault> {
        if self.period.is_before(row) {
            self.opening = row.balances;
            self.closing = row.balances;
        } else if self.period.is_within(row) {
            if self.rows.push(*row).is_err() {
                return Err(SinkFault::Memory);
            }
            self.closing = row.balances;
        }
        Ok(())
    }
}
