//! How a command calls a service.
ghost use Rattle.std.specs.Prelude.{◌≡◌, ◌⊎◌, IfErr, IfSome, MatchResult};
ghost use Rattle.control.specs.Answers.{IsAnswerToCall};
ghost use Rattle.control.specs.Told.{IsCallFault};

use crate::answer::Answer;
use crate::hearing::told;
use crate::messages::{Call, message};
use command_texts::Fault;
use std::alloc::Global;
use std::io::{self, ErrorKind, Read, Write};
use std::net::Net;
use std::os::unix::net::UnixStream;
use std::time::Duration;

/// So many seconds a reply is waited for.
const USUAL: u64 = 60;

/// The same where a service is to end, which writes what it owes before.
const AT_THE_END: u64 = 75;

/// The same where a copy is to be made, which takes the longer the larger the file is.
const AT_A_COPY: u64 = 3_600;

// Who accepts at a path, if anybody does. A path that is too long for a socket has none.
fn connect<R: Net>(rt: &R, path: &str) -> Result<Option<UnixStream>, Fault>
    ensures { IfErr result (λ fault. (fault ≡ Fault.Unavailable) ⊎ (fault ≡ Fault.Unreadable)) }
{
    match UnixStream::connect(rt, path) {
        Ok(stream) => Ok(Some(stream)),
        Err(error) => match error.kind() {
            ErrorKind::NotFound
            | ErrorKind::ConnectionRefused
            | ErrorKind::NotADirectory
            | ErrorKind::InvalidInput => Ok(None),
            ErrorKind::PermissionDenied => Err(Fault::Unreadable),
            _ => Err(Fault::Unavailable),
        },
    }
}

fn patience(call: &Call<'_>) -> Duration {
    match call {
        Call::Copy { .. } => Duration::from_secs(AT_A_COPY),
        Call::Stop => Duration::from_secs(AT_THE_END),
        _ => Duration::from_secs(USUAL),
    }
}

// Sends a message, and reads all that comes.
fn exchange(
    alloc: Global,
    stream: &mut UnixStream,
    message: &[u8],
    patience: Duration,
) -> io::Result<Vec<u8>> {
    stream.set_read_timeout(Some(patience))?;
    stream.set_write_timeout(Some(patience))?;
    stream.write_all(message)?;
    let mut reply = Vec::new(alloc);
    stream.read_to_end(&mut reply)?;
    Ok(reply)
}

/// Asks the service that accepts at a path. `None` where nobody does: then the file is nobody's.
/// Else it is the answer, or the fault. It is `Unreadable` where the socket is another user's, and
/// `Unavailable` where no reply came that could be read: what was asked for may be done.
pub fn call<R: Net>(
    rt: &R,
    alloc: Global,
    path: &str,
    call: &Call<'_>,
) -> Result<Option<Answer>, Fault>
    ensures { MatchResult result (λ found. IfSome found (IsAnswerToCall call.now)) IsCallFault }
{
    let message = message(alloc, call)?;
    let Some(mut stream) = connect(rt, path)? else {
        return Ok(None);
    };
    let Ok(reply) = exchange(alloc, &mut stream, message.as_slice(), patience(call)) else {
        return Err(Fault::Unavailable);
    };
    let body = told(alloc, reply.as_slice())?;
    Ok(Some(Answer {
        message,
        reply,
        body,
    }))
}
