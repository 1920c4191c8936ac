//! Messages, as a reader gives them.
ghost use Rattle.std.specs.Prelude.{◌≡◌, ◌≤◌, ◌+◌, ◌-◌, ◌||◌, ℕ, List, Some, length, take, drop, is_err, IfOk, IfErr, OnOk, OnErr};
ghost use Rattle.httparse.specs.Grammar.{RequestHead};
ghost use Rattle.ledger_http.specs.Limits.{max_head, max_body};
ghost use Rattle.ledger_http.specs.Message.{length_of_body};
ghost use Rattle.ledger_http.specs.Head.{IsGoodHead};
ghost use Rattle.ledger_http.specs.Reading.{Fills, FallsShort};
ghost use Rattle.ledger_http.specs.First.{IsFirst, IsHeadRefused, IsRead, IsToldReading};
ghost use Rattle.ledger_http.specs.First.{IsBrokenOff};

use crate::Refusal;
use crate::asking::body_length;
use crate::head::head_of;
use crate::limits::MAX_HEAD;
use crate::reading::{HeadEnd, fill, read_head};
use records::{Failed, Source};
use std::alloc::Global;

/// What a reader gives next.
#[derive(Debug, Drop)]
pub enum Message {
    /// A message, with its head.
    Whole(Vec<u8>),
    /// Nothing: the input has ended.
    End,
    /// No message that is taken. Its head is read, or as many bytes as one may have, or all of a
    /// message that is cut short; what the reader has left is of no use.
    Refused(Refusal),
    /// A good head, behind which a body of allowed length is due; memory for it ran out, and
    /// nothing of it is read.
    NoMemory,
}

/// The reader failed, before a message was whole or refused. What it gave of one is lost.
#[derive(Clone, Copy, Debug, PartialEq, Eq)]
pub struct ReadError;

impl From<Failed> for ReadError {
    fn from(_failed: Failed) -> ReadError {
        ReadError
    }
}

/// How long the body is behind a head that takes up all bytes.
pub(crate) fn announced(head: &[u8]) -> Result<usize, Refusal>
    ensures good { IfOk result (λ size. (h : RequestHead)
        × IsGoodHead head.now h × (length_of_body h ≡ Ok size)) }
    ensures bad { IfErr result (IsHeadRefused head.now) }
    ensures few { IfOk result (λ size. size ≤ max_body) }
{
    body_length(&head_of(head)?)
}

// Fills `room` with a head and the body behind it, or less of that at the end of the input. Says
// how much of the body there was.
fn fill_message<R: Source>(reader: &mut R, head: &[u8], room: &mut [u8]) -> Result<usize, Failed>
    requires { length head.now ≤ length room.old }
    ensures front { OnOk result (take (length head.now) room.new ≡ head.now) }
    ensures bytes { IfOk result (λ filled. (bytes : List ℕ) → R.left reader.old ≡ Some bytes
        → Fills bytes (R.left reader.new) (drop (length head.now) room.new) filled) }
    ensures broken { OnErr result ((bytes : List ℕ) → R.left reader.old ≡ Some bytes
        → FallsShort bytes (R.left reader.new) (length room.old - length head.now)) }
    ensures failed { R.failed reader.new ≡ (is_err result || R.failed reader.old) }
{
    room[..head.len()].copy_from_slice(head);
    fill(reader, &mut room[head.len()..])
}

// Reads the body behind a head.
fn read_body<R: Source>(
    alloc: Global,
    reader: &mut R,
    head: &[u8],
    size: usize,
) -> Result<Message, ReadError>
    requires head { length head.now ≤ max_head }
    requires body { size ≤ max_body }
    ensures read { IfOk result (λ message. (bytes : List ℕ) → R.left reader.old ≡ Some bytes
        → IsRead head.now bytes size (R.left reader.new) message) }
    ensures reading { IfOk result IsToldReading }
    ensures broken { OnErr result ((bytes : List ℕ) → R.left reader.old ≡ Some bytes
        → FallsShort bytes (R.left reader.new) size) }
    ensures failed { R.failed reader.new ≡ (is_err result || R.failed reader.old) }
{
    let Ok(mut message) = vec![in alloc; 0u8; head.len() + size] else {
        return Ok(Message::NoMemory);
    };
    if fill_message(reader, head, &mut message)? < size {
        return Ok(Message::Refused(Refusal::Truncated));
    }
    Ok(Message::Whole(message))
}

/// Reads the first message of what is unread, however it is cut into pieces. Nothing is kept for
/// the next call, and no byte behind the message is read, nor behind a head that is refused.
///
/// A message that is whole, or refused, is told before the reader is asked for more: `ReadError`
/// comes behind a beginning of one alone.
pub fn read_message<R: Source>(alloc: Global, reader: &mut R) -> Result<Message, ReadError>
    ensures first { IfOk result (λ message. (unread : List ℕ) → R.left reader.old ≡ Some unread
        → IsFirst unread (R.left reader.new) message) }
    ensures reading { IfOk result IsToldReading }
    ensures broken { OnErr result ((unread : List ℕ) → R.left reader.old ≡ Some unread
        → IsBrokenOff unread (R.left reader.new)) }
    ensures failed { R.failed reader.new ≡ (is_err result || R.failed reader.old) }
{
    let mut room = [0u8; MAX_HEAD];
    let size = match read_head(reader, &mut room)? {
        HeadEnd::At(size) => size,
        HeadEnd::Nothing => return Ok(Message::End),
        HeadEnd::Refused(refusal) => return Ok(Message::Refused(refusal)),
    };
    let head = &room[..size];
    let body_size = match announced(head) {
        Ok(body_size) => body_size,
        Err(refusal) => return Ok(Message::Refused(refusal)),
    };
    read_body(alloc, reader, head, body_size)
}
