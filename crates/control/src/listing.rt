//! The list of tenants, as a body and as lines.
ghost use Rattle.std.specs.Prelude.{◌≡◌, ◌⊎◌, ◌++◌, List, ℕ, Some, Err, IfOk, IfErr, OnOk};
ghost use Rattle.std.specs.Io.KnownBytes.{Appends};
ghost use Rattle.std.specs.String.{string_bytes};
ghost use Rattle.serde_json.specs.View.{items_view, view};
ghost use Rattle.serde_json.specs.Written.{compact_text};
ghost use Rattle.wire.specs.Reply.{list_data};
ghost use Rattle.wire.specs.Writing.{AddsData};
ghost use Rattle.command_texts.specs.Answered.{TellsIfAvailable};
ghost use Rattle.command_texts.specs.Lines.{tenants_line};
ghost use Rattle.control.specs.Listing.{HasLines, row_data, row_line, row_lines, rows_data};

use crate::members::text;
use crate::reading::value_in;
use command_texts::{Fault, put_tenants, put_text};
use json::Writer;
use records::Drain;
use serde_json::Value;
use std::alloc::{AllocError, Global};
use tenants::TenantName;
use wire::{Member, write_object};

/// A tenant in a list.
#[derive(Clone, Copy, Debug, PartialEq, Eq)]
pub struct TenantRow {
    pub name: TenantName,
    /// The digest of its key.
    pub digest: [u8; 32],
    /// Its greatest timestamp so far, in nanoseconds.
    pub clock: u64,
}

fn write_row(alloc: Global, writer: &mut Writer, row: &TenantRow) -> Result<(), AllocError>
    ensures { AddsData (row_data row.now) writer.old writer.new result }
{
    let digest = hex::encode(alloc, row.digest.as_slice())?;
    let members = [
        Member::text("name", row.name.as_str()),
        Member::text("digest", digest.as_str()),
        Member::u64("clock", row.clock),
    ];
    write_object(writer, &members)
}

fn write_rows(alloc: Global, writer: &mut Writer, rows: &[TenantRow]) -> Result<(), AllocError>
    ensures { AddsData (list_data row_data rows.now) writer.old writer.new result }
{
    writer.begin_array()?;
    for row in rows {
        write_row(alloc, writer, row)?;
    }
    writer.end_array()
}

/// The body that lists tenants.
pub fn tenants_body(alloc: Global, rows: &[TenantRow]) -> Result<Vec<u8>, AllocError>
    ensures { IfOk result (λ body. body.items ≡ compact_text (rows_data rows.now)) }
{
    let mut writer = Writer::new(Vec::new(alloc));
    writer.begin_object()?;
    writer.key("tenants")?;
    write_rows(alloc, &mut writer, rows)?;
    writer.end_object()?;
    Ok(writer.into_inner())
}

// The line of a tenant in such a body.
fn row_line(alloc: Global, row: &Value) -> Result<String, Fault>
    ensures { TellsIfAvailable result (λ line. row_line (view row.now) ≡ Some (string_bytes line)) }
{
    let name = text(row, "name").ok_or(Fault::Unavailable)?;
    let digest = text(row, "digest").ok_or(Fault::Unavailable)?;
    let clock = text(row, "clock").ok_or(Fault::Unavailable)?;
    Ok(format!(in alloc; "{name},{digest},{clock}\n")?)
}

// The lines of all of them.
fn row_lines(alloc: Global, rows: &[Value]) -> Result<String, Fault>
    ensures { TellsIfAvailable result (λ lines.
        row_lines (items_view rows.now) ≡ Some (string_bytes lines)) }
{
    let mut lines = String::new(alloc);
    for row in rows {
        lines.push_str(row_line(alloc, row)?.as_str())?;
    }
    Ok(lines)
}

// The same of a body.
fn lines_in(alloc: Global, body: &[u8]) -> Result<String, Fault>
    ensures { TellsIfAvailable result (λ lines. HasLines body.now (string_bytes lines)) }
{
    let value = value_in(alloc, body)?.ok_or(Fault::Unavailable)?;
    match value.get("tenants").and_then(Value::as_array) {
        Some(rows) => row_lines(alloc, rows.as_slice()),
        None => Err(Fault::Unavailable),
    }
}

/// Writes the list of tenants in a body as CSV, with a line that names what stands in the others.
/// Where the body has none it is `Unavailable`, and nothing is written.
pub fn put_listed<O: Drain>(alloc: Global, out: &mut O, body: &[u8]) -> Result<(), Fault>
    ensures listed { OnOk result ((lines : List ℕ) × HasLines body.now lines
        × Appends (O.written out.old) (O.written out.new) (tenants_line ++ lines)) }
    ensures kept { result ≡ Err Fault.Unavailable → out.new ≡ out.old }
    ensures fault { IfErr result (λ fault. (fault ≡ Fault.Unavailable) ⊎ (fault ≡ Fault.Output)) }
{
    let lines = lines_in(alloc, body)?;
    put_tenants(out)?;
    put_text(out, lines.as_str())
}
