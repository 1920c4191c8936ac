//! Serves a connection: one message after the other.
ghost use Rattle.std.specs.Prelude.{◌≡◌, ◌≤◌, ◌||◌, true};
ghost use Rattle.service.specs.Connections.{connection, IsServed, replies_in};
ghost use Rattle.service.specs.Connections.{is_read_fault, is_write_fault};

use crate::exchanging::{Exchanged, exchange, write};
use crate::moments::Moments;
use chain::Ledgers;
use records::{Drain, Source};
use std::alloc::Global;

/// Why serving a connection came to an end before its input did. What was answered stands.
#[derive(Clone, Copy, Debug, PartialEq, Eq)]
pub enum ServeFault {
    /// The reader failed, behind so many replies: each message that it gave whole is answered.
    Read(u64),
    /// The writer failed, behind so many replies: the next message is answered, and a beginning of
    /// its reply written.
    Write(u64),
}

/// Answers one message after the other, until the input ends, a reply ends the connection, or
/// `most` replies are written. Says how many were written, each of them whole.
///
/// A message that is read whole is answered, and its reply written, before another byte is read. No
/// byte is read behind the message of the last reply, nor behind a head that is refused.
///
/// The moment of each message is asked for once it is read. A message that is refused while it is
/// read, and want of memory while one is read, ask for none and end the connection.
pub fn serve<L: Ledgers, R: Source, W: Drain, C: Moments>(
    alloc: Global,
    ledgers: &mut L,
    reader: &mut R,
    writer: &mut W,
    moments: &mut C,
    most: u64,
) -> Result<u64, ServeFault>
    ensures served { IsServed L.means C.gives
        (connection ledgers.old (R.left reader.old) moments.old true) (W.written writer.old) most
        ledgers.new (R.left reader.new) moments.new (W.written writer.new) result }
    ensures few { replies_in result ≤ most }
    ensures reader_failed { R.failed reader.new ≡ (is_read_fault result || R.failed reader.old) }
    ensures writer_failed { W.failed writer.new ≡ (is_write_fault result || W.failed writer.old) }
    ensures stays { L.means.follows ledgers.old ledgers.new }
{
    let mut replies = 0;
    while replies < most {
        let Exchanged { reply, goes_on } = match exchange(alloc, ledgers, reader, moments) {
            Ok(Some(exchanged)) => exchanged,
            Ok(None) => return Ok(replies),
            Err(_) => return Err(ServeFault::Read(replies)),
        };
        if write(writer, reply).is_err() {
            return Err(ServeFault::Write(replies));
        }
        replies += 1;
        if !goes_on {
            return Ok(replies);
        }
    }
    Ok(replies)
}
