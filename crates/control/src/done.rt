//! What a body tells that was done.
ghost use Rattle.std.specs.Prelude.{◌≡◌, Some};
ghost use Rattle.command_texts.specs.Answered.{TellsIfAvailable};
ghost use Rattle.control.specs.Bodies.{IsAddedIn, IsChangedIn, IsStoppedIn, text_told};

use crate::members::text;
use crate::reading::value_in;
use command_texts::Fault;
use serde_json::Value;
use std::alloc::Global;
use tenants::TenantName;

// Sees to it that a body tells this text under a name.
fn is_text(alloc: Global, body: &[u8], member: &str, wanted: &str) -> Result<(), Fault>
    ensures { TellsIfAvailable result (λ done. text_told member.now body.now ≡ Some wanted.now) }
{
    let value = value_in(alloc, body)?.ok_or(Fault::Unavailable)?;
    let found = text(&value, member).ok_or(Fault::Unavailable)?;
    if found == wanted {
        Ok(())
    } else {
        Err(Fault::Unavailable)
    }
}

/// Sees to it that a body tells that this tenant was added. Else it is `Unavailable`: it may be.
pub fn added_in(alloc: Global, body: &[u8], name: &TenantName) -> Result<(), Fault>
    ensures { TellsIfAvailable result (λ done. IsAddedIn name.now body.now) }
{
    is_text(alloc, body, "added", name.as_str())
}

/// The same of another key of this tenant.
pub fn changed_in(alloc: Global, body: &[u8], name: &TenantName) -> Result<(), Fault>
    ensures { TellsIfAvailable result (λ done. IsChangedIn name.now body.now) }
{
    is_text(alloc, body, "changed", name.as_str())
}

/// The same of the end of a service.
pub fn stopped_in(alloc: Global, body: &[u8]) -> Result<(), Fault>
    ensures { TellsIfAvailable result (λ done. IsStoppedIn body.now) }
{
    let value = value_in(alloc, body)?.ok_or(Fault::Unavailable)?;
    match value.get("stopped").and_then(Value::as_bool) {
        Some(true) => Ok(()),
        _ => Err(Fault::Unavailable),
    }
}
