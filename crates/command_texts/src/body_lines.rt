//! Why a body is refused, and where, as `lint` tells it.
ghost use Rattle.std.specs.Prelude.{◌≡◌, IfOk};
ghost use Rattle.std.specs.String.{string_bytes};
ghost use Rattle.command_texts.specs.BodyLines.{body_line, field_text, lack_text, noun};
ghost use Rattle.command_texts.specs.BodyLines.{place_text};

use std::alloc::{AllocError, Global};
use wire::{BodyFault, Wanted};

/// The line that tells why a body is refused, and where. Events and ids are counted from 1.
pub(crate) fn body_line(alloc: Global, fault: &BodyFault) -> Result<String, AllocError>
    ensures { IfOk result (λ line. string_bytes line ≡ body_line fault.now) }
{
    let place = place_text(alloc, fault)?;
    let field = field_text(alloc, fault)?;
    let lack = lack_text(alloc, fault.wanted)?;
    Ok(format!(in alloc; "{place}{field}{lack}\n")?)
}

// What stands in a list: events, or in a look-up ids, which have no fields.
fn noun(fault: &BodyFault) -> &'static str
    ensures { result.now ≡ noun fault.now }
{
    match (&fault.field, fault.wanted) {
        (None, Wanted::Digits128) => "id",
        _ => "event",
    }
}

fn place_text(alloc: Global, fault: &BodyFault) -> Result<String, AllocError>
    ensures { IfOk result (λ text. string_bytes text ≡ place_text fault.now) }
{
    match fault.event {
        Some(number) => {
            let noun = noun(fault);
            format!(in alloc; "{noun} {number}: ")
        }
        None => Ok(String::new(alloc)),
    }
}

fn field_text(alloc: Global, fault: &BodyFault) -> Result<String, AllocError>
    ensures { IfOk result (λ text. string_bytes text ≡ field_text fault.now) }
{
    match &fault.field {
        Some(name) => {
            let name = name.as_str();
            format!(in alloc; "{name}: ")
        }
        None => Ok(String::new(alloc)),
    }
}

fn lack_text(alloc: Global, wanted: Wanted) -> Result<String, AllocError>
    ensures { IfOk result (λ text. string_bytes text ≡ lack_text wanted) }
{
    match wanted {
        Wanted::Few => String::from_str(alloc, "more than 1,000 events or ids"),
        Wanted::KnownName => String::from_str(alloc, "a field that nobody knows"),
        _ => {
            let want = wanted.text(alloc)?;
            format!(in alloc; "not {want}")
        }
    }
}
