//! What the words of the contracts say, taken together.
ghost use Rattle.statement.specs.Extract.{RowsMakeAnExtract};
ghost use Rattle.statement.specs.Laws.{AreExtractsPlain, AreLinesPlain, BeginAStatement};
ghost use Rattle.statement.specs.Laws.{MakeRowsAStatement};

use records::Drain;

/// No field of an entry needs quotes: its line is the fields joined by commas, and a line feed.
pub fn lines_are_plain()
    ensures { AreLinesPlain }
{}

/// What a new `StatementWriter` has written once it took some rows and `finish` was `Ok` is their
/// statement.
pub fn rows_make_a_statement<W: Drain>()
    ensures { MakeRowsAStatement W.written }
{}

/// What a new `StatementWriter` has written of a statement that breaks off is a beginning of it:
/// behind some rows, at one that it refused, or where `finish` failed.
pub fn rows_begin_a_statement<W: Drain>()
    ensures { BeginAStatement W.written }
{}

/// What a new `Extract` holds once it took a whole statement, oldest entry first, is what lies in
/// its period.
pub fn rows_make_an_extract()
    ensures { RowsMakeAnExtract }
{}

/// Entries of a period, written as CSV without sums and not wide, are the statement of these
/// entries: both ways of writing agree.
pub fn narrow_extracts_are_plain()
    ensures { AreExtractsPlain }
{}
