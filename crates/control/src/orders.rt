//! What an operator asks of a service.
ghost use Rattle.std.specs.Prelude.{◌≡◌, IfOk, IfErr, Some, option_map};
ghost use Rattle.std.specs.String.{string_bytes};
ghost use Rattle.serde_json.specs.View.{view};
ghost use Rattle.control.specs.Orders.{IsNamedIn, IsNamedKey, IsNoPathIn, IsOrderBy, IsOrderOf};
ghost use Rattle.control.specs.Orders.{IsRefusedBy, IsRefusedIn, IsRefusedKey, IsRefusedOf};
ghost use Rattle.control.specs.Orders.{is_from_root, path_at, path_in, path_of, texts_in};

use crate::asked::{Asked, asked_at};
use crate::members::{members, text};
use crate::parts::parts_in;
use crate::piece_asked::{PieceAsked, piece_of};
use crate::reading::value_in;
use crate::refusal::Refusal;
use command_texts::{key_digest, name};
use serde_json::Value;
use std::alloc::Global;
use tenants::TenantName;

/// What an operator asks of a service.
#[derive(Debug, PartialEq, Eq, Drop)]
pub enum Order {
    /// To list the tenants.
    Tenants,
    /// To add one, who is known by the digest of a key.
    AddTenant { name: TenantName, digest: [u8; 32] },
    /// To give one another key.
    ChangeKey { name: TenantName, digest: [u8; 32] },
    /// To tell its counts.
    Status,
    /// To copy the file to a path, which begins with `/`.
    Copy { to: String },
    /// To read a piece of a statement.
    Statement(PieceAsked),
    /// To end.
    Stop,
}

// A tenant's name, and the digest of its key.
#[derive(Clone, Copy)]
struct NamedKey {
    name: TenantName,
    digest: [u8; 32],
}

// The texts of the two members, where there are no others.
fn texts(value: &Value) -> Option<(&str, &str)>
    ensures { option_map (λ texts. (texts.0.now, texts.1.now)) result ≡ texts_in (view value.now) }
{
    match members(value) {
        Some(2) => Some((text(value, "name")?, text(value, "key")?)),
        _ => None,
    }
}

// The tenant that the two texts tell of.
fn named_key(name_text: &str, key: &str) -> Result<NamedKey, Refusal>
    ensures named { IfOk result (IsNamedKey name_text.now key.now) }
    ensures refused { IfErr result (IsRefusedKey name_text.now key.now) }
{
    let name = name(name_text)?;
    let digest = key_digest(key)?;
    Ok(NamedKey { name, digest })
}

// The tenant that a body tells of.
fn tenant_in(alloc: Global, body: &[u8]) -> Result<NamedKey, Refusal>
    ensures named { IfOk result (IsNamedIn body.now) }
    ensures refused { IfErr result (IsRefusedIn body.now) }
{
    let Some(value) = value_in(alloc, body)? else {
        return Err(Refusal::BadRequest);
    };
    match texts(&value) {
        Some((name, key)) => named_key(name, key),
        None => Err(Refusal::BadRequest),
    }
}

/// Whether a path begins at the root.
pub fn is_from_root(path: &str) -> bool
    ensures { result ≡ is_from_root path.now }
{
    matches!(path.as_bytes(), [b'/', ..])
}

// A path from the root on, in an object.
fn path_at(value: &Value) -> Option<&str>
    ensures { option_map (λ path. path.now) result ≡ path_at (view value.now) }
{
    let path = text(value, "to")?;
    if is_from_root(path) { Some(path) } else { None }
}

// The same where there are no other members.
fn path_in(value: &Value) -> Option<&str>
    ensures { option_map (λ path. path.now) result ≡ path_in (view value.now) }
{
    match members(value) {
        Some(1) => path_at(value),
        _ => None,
    }
}

// The path that a body tells of.
fn path_of(alloc: Global, body: &[u8]) -> Result<String, Refusal>
    ensures path { IfOk result (λ path. path_of body.now ≡ Some (string_bytes path)) }
    ensures refused { IfErr result (IsNoPathIn body.now) }
{
    let Some(value) = value_in(alloc, body)? else {
        return Err(Refusal::BadRequest);
    };
    match path_in(&value) {
        Some(path) => Ok(String::from_str(alloc, path)?),
        None => Err(Refusal::BadRequest),
    }
}

// What is ordered, by what is asked and the body.
fn order_by(alloc: Global, asked: Asked, body: &[u8]) -> Result<Order, Refusal>
    ensures ordered { IfOk result (IsOrderBy asked body.now) }
    ensures refused { IfErr result (IsRefusedBy asked body.now) }
{
    match asked {
        Asked::Tenants => Ok(Order::Tenants),
        Asked::AddTenant => {
            let NamedKey { name, digest } = tenant_in(alloc, body)?;
            Ok(Order::AddTenant { name, digest })
        }
        Asked::ChangeKey => {
            let NamedKey { name, digest } = tenant_in(alloc, body)?;
            Ok(Order::ChangeKey { name, digest })
        }
        Asked::Status => Ok(Order::Status),
        Asked::Copy => Ok(Order::Copy {
            to: path_of(alloc, body)?,
        }),
        Asked::Statement => Ok(Order::Statement(piece_of(alloc, body)?)),
        Asked::Stop => Ok(Order::Stop),
    }
}

/// What a whole message orders, or why it is refused.
pub(crate) fn order_in(alloc: Global, message: &[u8]) -> Result<Order, Refusal>
    ensures ordered { IfOk result (IsOrderOf message.now) }
    ensures refused { IfErr result (IsRefusedOf message.now) }
{
    let Some(parts) = parts_in(message) else {
        return Err(Refusal::BadRequest);
    };
    let asked = asked_at(parts.method, parts.path)?;
    order_by(alloc, asked, parts.body)
}
