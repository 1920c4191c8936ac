ghost use Rattle.std.specs.Prelude.{◌≡◌, ◌||◌, OnErr, OnOk};
ghost use Rattle.std.specs.Io.KnownBytes.{Appends};
ghost use Rattle.records.specs.Streams.{AppendsFront};
ghost use Rattle.statement.specs.Fault.{is_write_fault};
ghost use Rattle.statement.specs.Text.{statement_text};

use crate::StatementFault;
use crate::line::line_of;
use crate::names::header_line;
use records::{Drain, StatementRow, put_all};
use std::alloc::Global;

/// Writes a statement of these entries: the header line, and a line for each.
pub fn write_statement<W: Drain>(
    alloc: Global,
    writer: &mut W,
    rows: &[StatementRow],
) -> Result<(), StatementFault>
    ensures ok { OnOk result
        (Appends (W.written writer.old) (W.written writer.new) (statement_text rows.now)) }
    ensures err { OnErr result
        (AppendsFront (W.written writer.old) (W.written writer.new) (statement_text rows.now)) }
    ensures failed { W.failed writer.new ≡ (is_write_fault result || W.failed writer.old) }
{
    put_all(writer, header_line())?;
    let mut line = Vec::new(alloc);
    for row in rows {
        line = line_of(line, row)?;
        put_all(writer, line.as_slice())?;
    }
    Ok(())
}
