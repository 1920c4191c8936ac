//! Those who call.
use command_texts::Fault;
use control::{Call, Desk, message, told};
use std::io::{Read, Write};
use std::os::unix::net::UnixStream;
use std::test::Fail;
use std::time::Duration;

/// A moment so many seconds behind the beginning.
pub(super) fn at(seconds: u64) -> Duration {
    Duration::from_secs(seconds)
}

/// Somebody who has connected and sent some bytes.
pub(super) fn sends(rt: &HostRuntime, path: &str, bytes: &[u8]) -> Result<UnixStream, Fail> {
    let mut stream = UnixStream::connect(rt, path)?;
    stream.set_read_timeout(Some(at(5)))?;
    stream.write_all(bytes)?;
    Ok(stream)
}

/// The same with a call.
pub(super) fn calls(rt: &HostRuntime, path: &str, asked: &Call<'_>) -> Result<UnixStream, Fail> {
    sends(rt, path, message(rt.alloc(), asked)?.as_slice())
}

/// All that somebody is told.
pub(super) fn hears(rt: &HostRuntime, stream: &mut UnixStream) -> Result<Vec<u8>, Fail> {
    let mut heard = Vec::new(rt.alloc());
    stream.read_to_end(&mut heard)?;
    Ok(heard)
}

/// Whether somebody is told this, as a command reads it.
pub(super) fn is_told(
    rt: &HostRuntime,
    stream: &mut UnixStream,
    want: &Result<&str, Fault>,
) -> Result<bool, Fail> {
    let heard = hears(rt, stream)?;
    Ok(reads_as(rt, heard.as_slice(), want))
}

/// Whether a reply tells this.
pub(super) fn reads_as(rt: &HostRuntime, reply: &[u8], want: &Result<&str, Fault>) -> bool {
    match (told(rt.alloc(), reply), want) {
        (Ok(body), Ok(text)) => body.as_slice() == text.as_bytes(),
        (Err(fault), Err(other)) => fault == *other,
        _ => false,
    }
}

/// Whether a message orders nothing and is refused with a status and a word.
pub(super) fn is_refused(
    rt: &HostRuntime,
    path: &str,
    desk: &mut Desk,
    message: &str,
    status: &str,
    word: &str,
) -> Result<bool, Fail> {
    let mut caller = sends(rt, path, message.as_bytes())?;
    let is_ordered = desk.next(at(1)).is_some();
    let size = word.len().saturating_add(12);
    let want = format!(in rt.alloc();
        "HTTP/1.1 {status}\r\ncontent-length: {size}\r\ncontent-type: application/json\r\nconnection: close\r\n\r\n{{\"error\":\"{word}\"}}"
    )?;
    Ok(!is_ordered && hears(rt, &mut caller)?.as_slice() == want.as_bytes())
}
