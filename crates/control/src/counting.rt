//! The counts of a service, as a body and as lines.
ghost use Rattle.std.specs.Prelude.{◌≡◌, ◌⊎◌, List, ℕ, Some, Err, IfOk, IfErr, OnOk, map};
ghost use Rattle.std.specs.Io.KnownBytes.{Appends};
ghost use Rattle.std.specs.String.{string_bytes};
ghost use Rattle.serde_json.specs.View.{members_view, view};
ghost use Rattle.serde_json.specs.Written.{compact_text};
ghost use Rattle.wire.specs.Reply.{object_with};
ghost use Rattle.wire.specs.Writing.{AddsData};
ghost use Rattle.command_texts.specs.Answered.{TellsIfAvailable};
ghost use Rattle.control.specs.Counting.{IsCounted, count_member, counts_data, line_in, lines_in, line_of};

use crate::reading::value_in;
use command_texts::{Fault, put_text};
use json::Writer;
use records::Drain;
use serde_json::{Map, Value};
use std::alloc::{AllocError, Global};
use wire::{Member, write_member};

/// A count of a service.
#[derive(Clone, Copy, Debug, PartialEq, Eq)]
pub struct Count<'a> {
    pub name: &'a str,
    pub value: u128,
}

/// How counts are told.
#[derive(Clone, Copy, Debug, PartialEq, Eq)]
pub enum CountForm {
    /// A name and a number.
    Plain,
    /// As Prometheus reads it.
    Metric,
}

// Writes an object that has counts as its members.
fn write_counts(writer: &mut Writer, counts: &[Count<'_>]) -> Result<(), AllocError>
    ensures { AddsData (object_with (map count_member counts.now)) writer.old writer.new result }
{
    writer.begin_object()?;
    for count in counts {
        write_member(writer, &Member::u128(count.name, count.value))?;
    }
    writer.end_object()
}

/// The body that tells counts.
pub fn counts_body(alloc: Global, counts: &[Count<'_>]) -> Result<Vec<u8>, AllocError>
    ensures { IfOk result (λ body. body.items ≡ compact_text (counts_data counts.now)) }
{
    let mut writer = Writer::new(Vec::new(alloc));
    writer.begin_object()?;
    writer.key("status")?;
    write_counts(&mut writer, counts)?;
    writer.end_object()?;
    Ok(writer.into_inner())
}

// The line of a count.
fn line_of(alloc: Global, form: CountForm, name: &str, value: &str) -> Result<String, AllocError>
    ensures { IfOk result (λ line. string_bytes line ≡ line_of form name.now value.now) }
{
    match form {
        CountForm::Plain => format!(in alloc; "{name} {value}\n"),
        CountForm::Metric => format!(in alloc; "ledgerd_{name} {value}\n"),
    }
}

// The line of a member.
fn line_in(alloc: Global, form: CountForm, name: &str, value: &Value) -> Result<String, Fault>
    ensures { TellsIfAvailable result (λ line.
        line_in form name.now (view value.now) ≡ Some (string_bytes line)) }
{
    match value.as_str() {
        Some(value) => Ok(line_of(alloc, form, name, value)?),
        None => Err(Fault::Unavailable),
    }
}

// The lines of all members.
fn lines_in(alloc: Global, form: CountForm, counts: &Map<String, Value>) -> Result<String, Fault>
    ensures { TellsIfAvailable result (λ lines.
        lines_in form (members_view counts.now.entries) ≡ Some (string_bytes lines)) }
{
    let mut lines = String::new(alloc);
    for (name, value) in counts.iter() {
        lines.push_str(line_in(alloc, form, name.as_str(), value)?.as_str())?;
    }
    Ok(lines)
}

// The same of a body.
fn lines_of(alloc: Global, form: CountForm, body: &[u8]) -> Result<String, Fault>
    ensures { TellsIfAvailable result (λ lines. IsCounted form body.now (string_bytes lines)) }
{
    let value = value_in(alloc, body)?.ok_or(Fault::Unavailable)?;
    match value.get("status").and_then(Value::as_object) {
        Some(counts) => lines_in(alloc, form, counts),
        None => Err(Fault::Unavailable),
    }
}

/// Writes the counts in a body, a line each. Where the body has none it is `Unavailable`, and
/// nothing is written.
pub fn put_counted<O: Drain>(
    alloc: Global,
    out: &mut O,
    form: CountForm,
    body: &[u8],
) -> Result<(), Fault>
    ensures counted { OnOk result ((lines : List ℕ) × IsCounted form body.now lines
        × Appends (O.written out.old) (O.written out.new) lines) }
    ensures kept { result ≡ Err Fault.Unavailable → out.new ≡ out.old }
    ensures fault { IfErr result (λ fault. (fault ≡ Fault.Unavailable) ⊎ (fault ≡ Fault.Output)) }
{
    let lines = lines_of(alloc, form, body)?;
    put_text(out, lines.as_str())
}
