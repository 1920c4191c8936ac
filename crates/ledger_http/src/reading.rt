//! Reads the bytes of a message, and none behind them.
ghost use Rattle.std.specs.Prelude.{◌≡◌, ◌≤◌, ◌<◌, ◌||◌, ℕ, List, Some, length, drop, is_err, slice_get, IfOk, OnErr};
ghost use Rattle.std.specs.Io.KnownBytes.{Keeps};
ghost use Rattle.ledger_http.specs.Limits.{max_head};
ghost use Rattle.ledger_http.specs.First.{IsBrokenOff};
ghost use Rattle.ledger_http.specs.Reading.{IsHeadEnd, EndsWithin, Fills, FallsShort};

use crate::Refusal;
use crate::ends::ends_head;
use crate::limits::MAX_HEAD;
use records::{Failed, Source};

// The next byte; none at the end.
fn take_byte<R: Source>(reader: &mut R) -> Result<Option<u8>, Failed>
    ensures byte { IfOk result (λ byte. (bytes : List ℕ) → R.left reader.old ≡ Some bytes
        → (byte ≡ slice_get bytes 0) × (R.left reader.new ≡ Some (drop 1 bytes))) }
    ensures kept { OnErr result (Keeps (R.left reader.old) (R.left reader.new)) }
    ensures failed { R.failed reader.new ≡ (is_err result || R.failed reader.old) }
{
    let mut piece = [0u8];
    if reader.take(&mut piece)? == 0 {
        Ok(None)
    } else {
        Ok(Some(piece[0]))
    }
}

/// What came of reading a head.
#[derive(Clone, Copy)]
pub(crate) enum HeadEnd {
    /// It has so many bytes.
    At(usize),
    /// There are no bytes.
    Nothing,
    /// It is cut short, or too long.
    Refused(Refusal),
}

/// Reads up to the end of a head, a byte at a time, since what is behind the head may belong to the
/// next message.
pub(crate) fn read_head<R: Source>(reader: &mut R, head: &mut [u8]) -> Result<HeadEnd, Failed>
    requires { length head.old ≡ max_head }
    ensures within { IfOk result (EndsWithin max_head) }
    ensures bytes { IfOk result (λ end. (bytes : List ℕ) → R.left reader.old ≡ Some bytes
        → IsHeadEnd bytes (R.left reader.new) head.new end) }
    ensures broken { OnErr result ((bytes : List ℕ) → R.left reader.old ≡ Some bytes
        → IsBrokenOff bytes (R.left reader.new)) }
    ensures failed { R.failed reader.new ≡ (is_err result || R.failed reader.old) }
{
    for at in 0..MAX_HEAD {
        let Some(byte) = take_byte(reader)? else {
            return Ok(if at == 0 {
                HeadEnd::Nothing
            } else {
                HeadEnd::Refused(Refusal::Truncated)
            });
        };
        head[at] = byte;
        if ends_head(&head[..at + 1]) {
            return Ok(HeadEnd::At(at + 1));
        }
    }
    Ok(HeadEnd::Refused(Refusal::HeadTooLarge))
}

/// Fills `room`, or less of it at the end of the input, and says how many bytes it read.
pub(crate) fn fill<R: Source>(reader: &mut R, room: &mut [u8]) -> Result<usize, Failed>
    ensures within { IfOk result (λ filled. filled ≤ length room.new) }
    ensures bytes { IfOk result (λ filled. (bytes : List ℕ) → R.left reader.old ≡ Some bytes
        → Fills bytes (R.left reader.new) room.new filled) }
    ensures broken { OnErr result ((bytes : List ℕ) → R.left reader.old ≡ Some bytes
        → FallsShort bytes (R.left reader.new) (length room.old)) }
    ensures failed { R.failed reader.new ≡ (is_err result || R.failed reader.old) }
{
    let mut filled = 0;
    while filled < room.len() {
        let count = reader.take(&mut room[filled..])?;
        if count == 0 {
            break;
        }
        filled += count;
    }
    Ok(filled)
}
