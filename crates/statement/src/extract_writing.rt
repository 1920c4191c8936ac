//! The statement of a period.
ghost use Rattle.std.specs.Prelude.{◌≡◌, ◌++◌, IfOk, OnOk};
ghost use Rattle.statement.specs.Extract.{closing_of, kept_of, opening_of};
ghost use Rattle.statement.specs.Lines.{IsNextDetails, entry_lines};
ghost use Rattle.statement.specs.Written.{extract_text, lines_text, sums_text};

use crate::details::Details;
use crate::wide_line::Line;
use crate::writing::{put_line, put_names};
use crate::{Extract, Layout};
use records::{Side, StatementRow, Transfer};
use std::alloc::{AllocError, Global};

// What is told of the next entry's transfer, and the transfers behind it.
fn details_next<'a>(side: Side, transfers: &'a [Transfer]) -> (Details, &'a [Transfer])
    ensures { IsNextDetails side transfers.now result.0 result.1.now }
{
    match transfers {
        [first, others @ ..] => (Details::of(side, first), others),
        [] => (Details::NONE, transfers),
    }
}

// Writes the lines of entries, each with its transfer as long as there are some.
fn put_entries(
    out: &mut Vec<u8>,
    layout: Layout,
    rows: &[StatementRow],
    transfers: &[Transfer],
) -> Result<(), AllocError>
    ensures { OnOk result (out.new.items ≡ out.old.items ++ lines_text layout.form layout.is_wide
        (entry_lines rows.now transfers.now)) }
{
    let mut rest = transfers;
    for row in rows {
        let (details, others) = details_next(row.side, rest);
        rest = others;
        let line = Line::entry(row, details);
        put_line(out, layout.form, layout.is_wide, &line)?;
    }
    Ok(())
}

// Writes a line of sums, where they are asked for.
fn put_sums(out: &mut Vec<u8>, layout: Layout, line: &Line) -> Result<(), AllocError>
    ensures { OnOk result (out.new.items ≡ out.old.items ++ sums_text layout line.now) }
{
    if layout.with_sums {
        put_line(out, layout.form, layout.is_wide, line)
    } else {
        Ok(())
    }
}

/// The statement of a period: what the layout asks for, from an extract of the account's statement
/// and, for wide lines, the transfers of its entries in the same order.
pub fn extract_text(
    alloc: Global,
    layout: Layout,
    extract: &Extract,
    transfers: &[Transfer],
) -> Result<Vec<u8>, AllocError>
    ensures { IfOk result (λ text. text.items ≡ extract_text layout (opening_of extract.now)
        (kept_of extract.now) transfers.now (closing_of extract.now)) }
{
    let before = extract.opening();
    let first = Line::opening(before);
    let behind = extract.closing();
    let last = Line::closing(behind);
    let mut out = Vec::new(alloc);
    put_names(&mut out, layout.form, layout.is_wide)?;
    put_sums(&mut out, layout, &first)?;
    put_entries(&mut out, layout, extract.rows(), transfers)?;
    put_sums(&mut out, layout, &last)?;
    Ok(out)
}
