//! What a method and a path ask.
ghost use Rattle.std.specs.Prelude.{◌≡◌};
ghost use Rattle.control.specs.Calls.{asked_at, asked_by};

use crate::refusal::Refusal;

/// What a call asks, before its body is looked at.
#[derive(Clone, Copy, Debug, PartialEq, Eq)]
pub(crate) enum Asked {
    Tenants,
    AddTenant,
    ChangeKey,
    Status,
    Copy,
    Statement,
    Stop,
}

// What is asked by the one method that a path has.
fn asked_by(method: &[u8], wanted: &[u8], asked: Asked) -> Result<Asked, Refusal>
    ensures { result ≡ asked_by method.now wanted.now asked }
{
    if method == wanted {
        Ok(asked)
    } else {
        Err(Refusal::BadMethod)
    }
}

/// What a method and a path ask.
pub(crate) fn asked_at(method: &[u8], path: &str) -> Result<Asked, Refusal>
    ensures { result ≡ asked_at method.now path.now }
{
    match path {
        "/control/tenants" if method == b"GET".as_slice() => Ok(Asked::Tenants),
        "/control/tenants" => asked_by(method, b"POST", Asked::AddTenant),
        "/control/keys" => asked_by(method, b"POST", Asked::ChangeKey),
        "/control/status" => asked_by(method, b"GET", Asked::Status),
        "/control/copy" => asked_by(method, b"POST", Asked::Copy),
        "/control/statement" => asked_by(method, b"POST", Asked::Statement),
        "/control/stop" => asked_by(method, b"POST", Asked::Stop),
        _ => Err(Refusal::NoRoute),
    }
}
