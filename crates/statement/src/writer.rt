ghost use Rattle.std.specs.Prelude.{◌≡◌, ◌||◌, ◌++◌, false, true, is_err, Err, IfErr, OnErr, OnOk};
ghost use Rattle.std.specs.Io.KnownBytes.{Appends};
ghost use Rattle.records.specs.Streams.{AppendsFront, Puts};
ghost use Rattle.statement.specs.Fault.{is_sink_write, is_write_fault};
ghost use Rattle.statement.specs.Text.{line_of};
ghost use Rattle.statement.specs.Writer.{RefusesRow, TakesRow, drain_of, has_begun, header_left};
ghost use Rattle.statement.specs.Writer.{last_line};

use crate::StatementFault;
use crate::line::line_of;
use crate::names::header_line;
use records::{Drain, Failed, RowSink, SinkFault, StatementRow, put_all};
use std::alloc::Global;
use std::mem;

/// Writes a statement, entry by entry. The header goes out before the first entry, or by `finish`.
#[derive(Drop)]
pub struct StatementWriter<W: Drain> {
    alloc: Global,
    writer: W,
    // The last line, whose memory the next one takes.
    line: Vec<u8>,
    has_begun: bool,
}

impl<W: Drain> StatementWriter<W> {
    /// Writes nothing yet.
    pub fn new(alloc: Global, writer: W) -> Self
        ensures drain { drain_of result ≡ writer }
        ensures begun { has_begun result ≡ false }
    {
        StatementWriter {
            alloc,
            writer,
            line: Vec::new(alloc),
            has_begun: false,
        }
    }

    /// Ends the statement and gives the writer back. It is the last call, and the header goes out
    /// with it where no entry came.
    pub fn finish(mut self) -> (W, Result<(), StatementFault>)
        ensures ok { OnOk result.1
            (Appends (W.written (drain_of self)) (W.written result.0) (header_left self)) }
        ensures err { OnErr result.1
            (AppendsFront (W.written (drain_of self)) (W.written result.0) (header_left self)) }
        ensures write { IfErr result.1 (λ fault. fault ≡ StatementFault.Write) }
        ensures failed { W.failed result.0 ≡ (is_err result.1 || W.failed (drain_of self)) }
    {
        let ended = self.put_header();
        let writer = self.into_inner();
        match ended {
            Ok(()) => (writer, Ok(())),
            Err(Failed) => (writer, Err(StatementFault::Write)),
        }
    }

    /// Gives the writer back where the statement breaks off: it has what was written of it.
    pub fn into_inner(self) -> W
        ensures { result ≡ drain_of self }
    {
        let StatementWriter {
            writer,
            alloc: _,
            line: _,
            has_begun: _,
        } = self;
        writer
    }

    // Writes the header, where it is still to go out.
    fn put_header(&mut self) -> Result<(), Failed>
        ensures puts { Puts (header_left self.old) W.written W.failed (drain_of self.old)
            (drain_of self.new) result }
        ensures begun { OnOk result (has_begun self.new ≡ true) }
        ensures line { last_line self.new ≡ last_line self.old }
    {
        if self.has_begun {
            return Ok(());
        }
        put_all(&mut self.writer, header_line())?;
        self.has_begun = true;
        Ok(())
    }

    // Writes a row's line, behind the header where that is still to go out. The line is made first,
    // so that want of memory writes nothing.
    fn put_row(&mut self, row: &StatementRow) -> Result<(), StatementFault>
        ensures ok { OnOk result (TakesRow W.written self.old row.now self.new) }
        ensures err { OnErr result (AppendsFront (W.written (drain_of self.old))
            (W.written (drain_of self.new)) (header_left self.old ++ line_of row.now)) }
        ensures memory { result ≡ Err StatementFault.Memory
            → drain_of self.new ≡ drain_of self.old }
        ensures failed { W.failed (drain_of self.new)
            ≡ (is_write_fault result || W.failed (drain_of self.old)) }
    {
        let buffer = mem::replace(&mut self.line, Vec::new(self.alloc));
        self.line = line_of(buffer, row)?;
        self.put_header()?;
        put_all(&mut self.writer, self.line.as_slice())?;
        Ok(())
    }
}

impl<W: Drain> RowSink for StatementWriter<W> {
    ghost takes = { TakesRow W.written };

    ghost refuses = { RefusesRow W.written };

    fn row(&mut self, row: &StatementRow) -> Result<(), SinkFault>
        ensures taken { OnOk result (TakesRow W.written self.old row.now self.new) }
        ensures refusal { IfErr result (λ why. RefusesRow W.written self.old row.now why self.new) }
        ensures failed { W.failed (drain_of self.new)
            ≡ (is_sink_write result || W.failed (drain_of self.old)) }
    {
        self.put_row(row)?;
        Ok(())
    }
}
