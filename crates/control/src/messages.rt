//! What a command sends.
ghost use Rattle.std.specs.Prelude.{◌≡◌, IfOk};
ghost use Rattle.serde_json.specs.Written.{compact_text};
ghost use Rattle.std.specs.String.{string_bytes};
ghost use Rattle.control.specs.Messages.{asked_by, body_text, head_text, message_text};
ghost use Rattle.control.specs.Messages.{tenant_data};

use crate::body::named_body;
use crate::piece_asked::{PieceAsked, piece_text};
use std::alloc::{AllocError, Global};
use wire::{Member, object_text};

/// What a command asks of a service. Names and keys stand as they were written: the service judges
/// them.
#[derive(Clone, Copy, Debug, PartialEq, Eq)]
pub enum Call<'a> {
    /// To list the tenants.
    Tenants,
    /// To add one, by its name and its key in hexadecimal digits.
    AddTenant { name: &'a str, key: &'a str },
    /// To give one another key.
    ChangeKey { name: &'a str, key: &'a str },
    /// To tell its counts.
    Status,
    /// To copy the file to a path, which begins with `/`.
    Copy { to: &'a str },
    /// To read a piece of a statement.
    Statement { piece: PieceAsked },
    /// To end.
    Stop,
}

impl Call<'_> {
    fn method(&self) -> &'static str
        ensures { result.now ≡ (asked_by self.now).0 }
    {
        match self {
            Call::Tenants | Call::Status => "GET",
            Call::AddTenant { .. }
            | Call::ChangeKey { .. }
            | Call::Copy { .. }
            | Call::Statement { .. }
            | Call::Stop => "POST",
        }
    }

    fn path(&self) -> &'static str
        ensures { result.now ≡ (asked_by self.now).1 }
    {
        match self {
            Call::Tenants | Call::AddTenant { .. } => "/control/tenants",
            Call::ChangeKey { .. } => "/control/keys",
            Call::Status => "/control/status",
            Call::Copy { .. } => "/control/copy",
            Call::Statement { .. } => "/control/statement",
            Call::Stop => "/control/stop",
        }
    }

    fn body(&self, alloc: Global) -> Result<Vec<u8>, AllocError>
        ensures { IfOk result (λ body. body.items ≡ body_text self.now) }
    {
        match self {
            Call::AddTenant { name, key } | Call::ChangeKey { name, key } => {
                tenant_text(alloc, name, key)
            }
            Call::Copy { to } => named_body(alloc, "to", to),
            Call::Statement { piece } => piece_text(alloc, piece),
            Call::Tenants | Call::Status | Call::Stop => Ok(Vec::new(alloc)),
        }
    }
}

// A name and a key, as compact JSON.
fn tenant_text(alloc: Global, name: &str, key: &str) -> Result<Vec<u8>, AllocError>
    ensures { IfOk result (λ text. text.items ≡ compact_text (tenant_data name.now key.now)) }
{
    object_text(
        alloc,
        &[Member::text("name", name), Member::text("key", key)],
    )
}

// All of a message that stands before its body.
fn head(alloc: Global, method: &str, path: &str, length: usize) -> Result<String, AllocError>
    ensures { IfOk result (λ head. string_bytes head ≡ head_text method.now path.now length) }
{
    format!(in alloc;
        "{method} {path} HTTP/1.1\r\nhost: control\r\nconnection: close\r\ncontent-length: {length}\r\n\r\n"
    )
}

/// The message of a call.
pub fn message(alloc: Global, call: &Call<'_>) -> Result<Vec<u8>, AllocError>
    ensures { IfOk result (λ message. message.items ≡ message_text call.now) }
{
    let body = call.body(alloc)?;
    let mut bytes = head(alloc, call.method(), call.path(), body.len())?.into_bytes();
    bytes.extend_from_slice(&body)?;
    Ok(bytes)
}
