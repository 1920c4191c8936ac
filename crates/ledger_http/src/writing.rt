//! Writes replies.
ghost use Rattle.records.specs.Streams.{Puts};
ghost use Rattle.ledger_http.specs.ReplyText.{reply_text};

use crate::Reply;
use records::{Drain, Failed, put_all};

/// The writer failed.
#[derive(Clone, Copy, Debug, PartialEq, Eq)]
pub struct WriteError;

impl From<Failed> for WriteError {
    fn from(_failed: Failed) -> WriteError {
        WriteError
    }
}

/// Writes a reply whole, or a beginning of it where the writer fails.
pub fn write_reply<W: Drain>(writer: &mut W, reply: &Reply) -> Result<(), WriteError>
    ensures { Puts (reply_text reply.now) W.written W.failed writer.old writer.new result }
{
    put_all(writer, reply.bytes())?;
    Ok(())
}
