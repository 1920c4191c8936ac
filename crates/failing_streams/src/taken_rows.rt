//! A sink of rows that has room for some.

use records::{RowSink, SinkFault, StatementRow};

/// Takes so many rows, and refuses the next.
#[derive(Drop)]
pub struct TakenRows {
    pub taken: Vec<StatementRow>,
    pub room: usize,
}

impl RowSink for TakenRows {
    ghost takes = { λ _ _ _. Unit {0} };

    ghost refuses = { λ _ _ _ _. Unit {0} };

    fn row(&mut self, row: &StatementRow) -> Result<(), SinkFault> {
        if self.taken.len() == self.room {
            return Err(SinkFault::Write);
        }
        match self.taken.push(*row) {
            Ok(()) => Ok(()),
            Err(_) => Err(SinkFault::Memory),
        }
    }
}
