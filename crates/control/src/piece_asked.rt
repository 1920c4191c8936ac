//! What of a statement is asked for.
ghost use Rattle.std.specs.Prelude.{◌≡◌, IfErr, IfOk, option_map};
ghost use Rattle.serde_json.specs.View.{view};
ghost use Rattle.serde_json.specs.Written.{compact_text};
ghost use Rattle.control.specs.PieceAsked.{IsNoPieceIn, IsPieceIn, all_in, piece_data, wanted_in};

use crate::members::{members, text};
use crate::numbers::{number_64_at, number_at};
use crate::reading::value_in;
use crate::refusal::Refusal;
use command_texts::name;
use serde_json::Value;
use std::alloc::{AllocError, Global};
use tenants::TenantName;
use wire::{Member, object_text};

/// A piece of an account's statement: its entries from a time up to another, both in nanoseconds
/// and both included. The newest come first if it is reversed.
#[derive(Clone, Copy, Debug, PartialEq, Eq)]
pub struct PieceAsked {
    pub tenant: TenantName,
    pub account: u128,
    pub from: u64,
    pub to: u64,
    pub is_reversed: bool,
}

// The same, before the tenant's name is judged.
#[derive(Clone, Copy)]
struct Wanted<'a> {
    tenant: &'a str,
    account: u128,
    from: u64,
    to: u64,
    is_reversed: bool,
}

// What the five members tell.
fn all_in(value: &Value) -> Option<Wanted<'_>>
    ensures { option_map (λ wanted.
        (wanted.tenant.now, wanted.account, wanted.from, wanted.to, wanted.is_reversed)) result
        ≡ all_in (view value.now) }
{
    Some(Wanted {
        tenant: text(value, "tenant")?,
        account: number_at(value, "account")?,
        from: number_64_at(value, "from")?,
        to: number_64_at(value, "to")?,
        is_reversed: value.get("reversed").and_then(Value::as_bool)?,
    })
}

// The same where there are no others.
fn wanted_in(value: &Value) -> Option<Wanted<'_>>
    ensures { option_map (λ wanted.
        (wanted.tenant.now, wanted.account, wanted.from, wanted.to, wanted.is_reversed)) result
        ≡ wanted_in (view value.now) }
{
    match members(value) {
        Some(5) => all_in(value),
        _ => None,
    }
}

/// The piece that a body asks for.
pub(crate) fn piece_of(alloc: Global, body: &[u8]) -> Result<PieceAsked, Refusal>
    ensures asked { IfOk result (IsPieceIn body.now) }
    ensures refused { IfErr result (IsNoPieceIn body.now) }
{
    let Some(value) = value_in(alloc, body)? else {
        return Err(Refusal::BadRequest);
    };
    let Some(wanted) = wanted_in(&value) else {
        return Err(Refusal::BadRequest);
    };
    Ok(PieceAsked {
        tenant: name(wanted.tenant)?,
        account: wanted.account,
        from: wanted.from,
        to: wanted.to,
        is_reversed: wanted.is_reversed,
    })
}

/// The body that asks for a piece.
pub(crate) fn piece_text(alloc: Global, piece: &PieceAsked) -> Result<Vec<u8>, AllocError>
    ensures { IfOk result (λ text. text.items ≡ compact_text (piece_data piece.now)) }
{
    let members = [
        Member::text("tenant", piece.tenant.as_str()),
        Member::u128("account", piece.account),
        Member::u64("from", piece.from),
        Member::u64("to", piece.to),
        Member::flag("reversed", piece.is_reversed),
    ];
    object_text(alloc, &members)
}
