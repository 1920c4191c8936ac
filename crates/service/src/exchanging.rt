//! One message of a connection, and its reply.
ghost use Rattle.std.specs.Prelude.{◌≡◌, ◌||◌, ℕ, List, Some, true, false, is_err, IfOk, OnErr};
ghost use Rattle.records.specs.Streams.{Puts};
ghost use Rattle.ledger_http.specs.First.{IsBrokenOff};
ghost use Rattle.ledger_http.specs.ReplyText.{reply_text};
ghost use Rattle.service.specs.Connections.{connection, Exchanges};

use crate::moments::Moments;
use crate::responding::respond;
use chain::Ledgers;
use ledger_http::{
    Message, ReadError, Refusal, Reply, WriteError, is_closing, read_message, write_reply,
};
use records::{Drain, Source};
use std::alloc::Global;

/// A reply, and whether the connection goes on behind it.
#[derive(Drop)]
pub(crate) struct Exchanged {
    pub(crate) reply: Reply,
    pub(crate) goes_on: bool,
}

impl Exchanged {
    // A refusal that ends the connection.
    fn last(refusal: Refusal) -> Exchanged
        ensures reply { result.reply ≡ Reply.Fixed refusal }
        ensures ends { result.goes_on ≡ false }
    {
        Exchanged {
            reply: Reply::Fixed(refusal),
            goes_on: false,
        }
    }
}

/// Writes a reply, and lets it go.
pub(crate) fn write<W: Drain>(writer: &mut W, reply: Reply) -> Result<(), WriteError>
    ensures { Puts (reply_text reply) W.written W.failed writer.old writer.new result }
{
    write_reply(writer, &reply)
}

/// Reads a message and answers it. There is none at the end of the input.
pub(crate) fn exchange<L: Ledgers, R: Source, C: Moments>(
    alloc: Global,
    ledgers: &mut L,
    reader: &mut R,
    moments: &mut C,
) -> Result<Option<Exchanged>, ReadError>
    ensures exchanges { IfOk result (Exchanges L.means C.gives
        (connection ledgers.old (R.left reader.old) moments.old true)
        ledgers.new (R.left reader.new) moments.new) }
    ensures same { OnErr result (ledgers.new ≡ ledgers.old) }
    ensures unasked { OnErr result (moments.new ≡ moments.old) }
    ensures broken { OnErr result ((unread : List ℕ) → R.left reader.old ≡ Some unread
        → IsBrokenOff unread (R.left reader.new)) }
    ensures failed { R.failed reader.new ≡ (is_err result || R.failed reader.old) }
    ensures stays { L.means.follows ledgers.old ledgers.new }
{
    match read_message(alloc, reader)? {
        Message::Whole(message) => {
            let moment = moments.moment();
            let reply = respond(alloc, ledgers, &message, moment);
            let goes_on = !is_closing(&message);
            Ok(Some(Exchanged { reply, goes_on }))
        }
        Message::End => Ok(None),
        Message::Refused(refusal) => Ok(Some(Exchanged::last(refusal))),
        Message::NoMemory => Ok(Some(Exchanged::last(Refusal::Unavailable))),
    }
}
