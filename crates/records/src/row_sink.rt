//! What takes an account's statement, row by row.
ghost use Rattle.std.specs.Prelude.{IfErr, OnOk};
ghost use Rattle.records.specs.declared.row_sink.SinkFault.{SinkFault};
ghost use Rattle.records.specs.declared.statement_row.StatementRow.{StatementRow};

use crate::StatementRow;

/// Why a sink refused a row.
#[derive(Clone, Copy, Debug, PartialEq, Eq)]
pub enum SinkFault {
    /// What it writes to failed.
    Write,
    /// Memory ran out.
    Memory,
}

/// Takes the rows of a statement.
pub trait RowSink {
    // What taking a row makes of the sink.
    ghost takes: { Self → StatementRow → Self → Type 0 };

    // What refusing a row with this fault makes of it.
    ghost refuses: { Self → StatementRow → SinkFault → Self → Type 0 };

    /// Takes the next row.
    fn row(&mut self, row: &StatementRow) -> Result<(), SinkFault>
        ensures taken { OnOk result (takes self.old row.now self.new) }
        ensures refusal { IfErr result (λ why. refuses self.old row.now why self.new) };
}
