//! The lines of a statement in each form.
ghost use Rattle.std.specs.Prelude.{◌≡◌, ◌++◌, OnOk};
ghost use Rattle.statement.specs.Columns.{IsNumberIn, cell_of, kind_word, number, side_word, word};
ghost use Rattle.statement.specs.Written.{cell_text, line_end, line_front, line_text, names_line};
ghost use Rattle.statement.specs.Written.{quoted};

use crate::Form;
use crate::column::Column;
use crate::decimal::Decimal;
use crate::line_kind::LineKind;
use crate::names::{kind_name, side_name};
use crate::wide_line::Line;
use std::alloc::AllocError;

fn line_front(form: Form) -> &'static [u8]
    ensures { result.now ≡ line_front form }
{
    match form {
        Form::Csv | Form::Sheet => b"",
        Form::Json => b"{",
    }
}

fn line_end(form: Form) -> &'static [u8]
    ensures { result.now ≡ line_end form }
{
    match form {
        Form::Csv | Form::Sheet => b"\n",
        Form::Json => b"}\n",
    }
}

fn side_word(kind: LineKind) -> &'static [u8]
    ensures { result.now ≡ side_word kind }
{
    match kind {
        LineKind::Entry(side, _) => side_name(side),
        LineKind::Opening | LineKind::Closing => b"",
    }
}

fn kind_word(kind: LineKind) -> &'static [u8]
    ensures { result.now ≡ kind_word kind }
{
    match kind {
        LineKind::Opening => b"opening",
        LineKind::Entry(_, kind) => kind_name(kind),
        LineKind::Closing => b"closing",
    }
}

fn put(out: &mut Vec<u8>, text: &[u8]) -> Result<(), AllocError>
    ensures { OnOk result (out.new.items ≡ out.old.items ++ text.now) }
{
    out.extend_from_slice(text)
}

fn put_quoted(out: &mut Vec<u8>, text: &[u8]) -> Result<(), AllocError>
    ensures { OnOk result (out.new.items ≡ out.old.items ++ quoted text.now) }
{
    put(out, b"\"")?;
    put(out, text)?;
    put(out, b"\"")
}

fn put_named(out: &mut Vec<u8>, column: Column, text: &[u8]) -> Result<(), AllocError>
    ensures { OnOk result
        (out.new.items ≡ out.old.items ++ cell_text Form.Json column (word text.now)) }
{
    put_quoted(out, column.name())?;
    put(out, b":")?;
    put_quoted(out, text)
}

fn put_number(out: &mut Vec<u8>, form: Form, column: Column, value: u128) -> Result<(), AllocError>
    ensures { OnOk result
        (out.new.items ≡ out.old.items ++ cell_text form column (number value)) }
{
    let digits = Decimal::new(value);
    match form {
        Form::Csv => put(out, digits.as_bytes()),
        Form::Sheet => {
            put(out, b"\"=\"\"")?;
            put(out, digits.as_bytes())?;
            put(out, b"\"\"\"")
        }
        Form::Json => put_named(out, column, digits.as_bytes()),
    }
}

fn put_word(out: &mut Vec<u8>, form: Form, column: Column, text: &[u8]) -> Result<(), AllocError>
    ensures { OnOk result
        (out.new.items ≡ out.old.items ++ cell_text form column (word text.now)) }
{
    match form {
        Form::Csv | Form::Sheet => put(out, text),
        Form::Json => put_named(out, column, text),
    }
}

// What a line has in a column of numbers; 0 in one of words.
fn number_in(line: &Line, column: Column) -> u128
    ensures { IsNumberIn (cell_of line.now column) result }
{
    let (debits, credits) = (line.balances.debits, line.balances.credits);
    match column {
        Column::Timestamp => u128::from(line.timestamp),
        Column::TransferId => line.transfer_id,
        Column::Side | Column::Kind => 0,
        Column::Amount => line.amount.value(),
        Column::DebitsPending => debits.pending.value(),
        Column::DebitsPosted => debits.posted.value(),
        Column::CreditsPending => credits.pending.value(),
        Column::CreditsPosted => credits.posted.value(),
        Column::OtherAccount => line.details.other_account,
        Column::PendingId => line.details.pending_id,
        Column::Code => u128::from(line.details.code),
        Column::UserData128 => line.details.user_data_128,
        Column::UserData64 => u128::from(line.details.user_data_64),
        Column::UserData32 => u128::from(line.details.user_data_32),
    }
}

fn put_cell(out: &mut Vec<u8>, form: Form, line: &Line, column: Column) -> Result<(), AllocError>
    ensures { OnOk result (out.new.items
        ≡ out.old.items ++ cell_text form column (cell_of line.now column)) }
{
    match column {
        Column::Side => put_word(out, form, column, side_word(line.kind)),
        Column::Kind => put_word(out, form, column, kind_word(line.kind)),
        _ => put_number(out, form, column, number_in(line, column)),
    }
}

/// Writes a line.
pub(crate) fn put_line(
    out: &mut Vec<u8>,
    form: Form,
    is_wide: bool,
    line: &Line,
) -> Result<(), AllocError>
    ensures { OnOk result (out.new.items ≡ out.old.items ++ line_text form is_wide line.now) }
{
    put(out, line_front(form))?;
    put_cell(out, form, line, Column::Timestamp)?;
    for column in Column::behind_first(is_wide) {
        put(out, b",")?;
        put_cell(out, form, line, *column)?;
    }
    put(out, line_end(form))
}

/// Writes the line that names the columns, where the form has one.
pub(crate) fn put_names(out: &mut Vec<u8>, form: Form, is_wide: bool) -> Result<(), AllocError>
    ensures { OnOk result (out.new.items ≡ out.old.items ++ names_line form is_wide) }
{
    if form == Form::Json {
        return Ok(());
    }
    put(out, Column::Timestamp.name())?;
    for column in Column::behind_first(is_wide) {
        put(out, b",")?;
        put(out, column.name())?;
    }
    put(out, b"\n")
}
