//! Calls to the service that has a file.
ghost use Rattle.std.specs.Prelude.{◌≡◌, ◌⊎◌, IfErr, IfOk, IfSome, MatchResult};
ghost use Rattle.control.specs.Answers.{IsAnswerToCall};
ghost use Rattle.control.specs.Told.{IsCallFault};

use command_texts::Fault;
use control::{Answer, Call, call};
use std::fs;
use std::io::ErrorKind;

/// The path of a file itself, wherever links lead. None where it is not found.
pub fn real_path(rt: &HostRuntime, db: &str) -> Result<Option<String>, Fault>
    ensures { IfErr result (λ fault. (fault ≡ Fault.Unavailable) ⊎ (fault ≡ Fault.Unreadable)) }
{
    match fs::canonicalize(rt, db) {
        Ok(real) => Ok(Some(String::from_str(rt.alloc(), real.as_str())?)),
        Err(error) => match error.kind() {
            ErrorKind::PermissionDenied => Err(Fault::Unreadable),
            ErrorKind::OutOfMemory => Err(Fault::Unavailable),
            _ => Ok(None),
        },
    }
}

/// Where a service that has a file listens for its operator: beside the file itself.
pub fn desk_path(rt: &HostRuntime, db: &str) -> Result<Option<String>, Fault>
    ensures { IfErr result (λ fault. (fault ≡ Fault.Unavailable) ⊎ (fault ≡ Fault.Unreadable)) }
{
    let Some(real) = real_path(rt, db)? else {
        return Ok(None);
    };
    let path = real.as_str();
    Ok(Some(format!(in rt.alloc(); "{path}.control")?))
}

/// What the service that has a file answers, if one has it and listens for its operator. It is
/// `Unreadable` where a folder on the way to the file is another user's.
pub fn ask(rt: &HostRuntime, db: &str, what: &Call<'_>) -> Result<Option<Answer>, Fault>
    ensures { MatchResult result (λ found. IfSome found (IsAnswerToCall what.now)) IsCallFault }
{
    match desk_path(rt, db)? {
        Some(path) => call(rt, rt.alloc(), path.as_str(), what),
        None => Ok(None),
    }
}

/// The same of a file that has to be served: where none serves it, that is `NotServed`.
pub fn ask_served(rt: &HostRuntime, db: &str, what: &Call<'_>) -> Result<Answer, Fault>
    ensures answer { IfOk result (IsAnswerToCall what.now) }
    ensures fault { IfErr result (λ fault. IsCallFault fault ⊎ (fault ≡ Fault.NotServed)) }
{
    match ask(rt, db, what)? {
        Some(answer) => Ok(answer),
        None => Err(Fault::NotServed),
    }
}
