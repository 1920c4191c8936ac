//! The bodies that tell what was done.
ghost use Rattle.std.specs.Prelude.{◌≡◌, IfOk};
ghost use Rattle.serde_json.specs.Written.{compact_text};
ghost use Rattle.control.specs.Bodies.{added_data, changed_data, named_data, stopped_data};

use std::alloc::{AllocError, Global};
use tenants::TenantName;
use wire::{Member, object_text};

/// An object with one text.
pub(crate) fn named_body(alloc: Global, member: &str, text: &str) -> Result<Vec<u8>, AllocError>
    ensures { IfOk result (λ body. body.items ≡ compact_text (named_data member.now text.now)) }
{
    object_text(alloc, &[Member::text(member, text)])
}

/// Tells that a tenant was added.
pub fn added_body(alloc: Global, name: &TenantName) -> Result<Vec<u8>, AllocError>
    ensures { IfOk result (λ body. body.items ≡ compact_text (added_data name.now)) }
{
    named_body(alloc, "added", name.as_str())
}

/// Tells that a tenant has another key.
pub fn changed_body(alloc: Global, name: &TenantName) -> Result<Vec<u8>, AllocError>
    ensures { IfOk result (λ body. body.items ≡ compact_text (changed_data name.now)) }
{
    named_body(alloc, "changed", name.as_str())
}

/// Tells that a service has ended.
pub(crate) fn stopped_body() -> &'static str
    ensures { result.now ≡ compact_text stopped_data }
{
    "{\"stopped\":true}"
}
