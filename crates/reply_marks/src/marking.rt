//! The mark of a reply.

ghost use Rattle.std.specs.Prelude.{List, IfOk, OnErr};
ghost use Rattle.file_sums.specs.declared.record.Record.{Record as AnyRecord};
ghost use Rattle.kept_sums.specs.Kept.{Keeps};
ghost use Rattle.reply_marks.specs.Marking.{IsMarked, IsMarkedAt};

use crate::clock_in;
use file_sums::Record;
use kept_sums::{KeptSums, Place};
use std::alloc::Global;
use std::io;

/// Appends the clock that a reply tells, where it is later than the mark so far, and returns whether
/// it was appended. It is not synced. Where the call fails, what was marked stays.
pub fn mark_reply<F: Place>(kept: &mut KeptSums<F>, alloc: Global, reply: &[u8]) -> io::Result<bool>
    ensures ok { IfOk result
        (IsMarked (λ k records. Keeps (F.bytes k.place) k.sums k.len records) reply.now
        kept.old kept.new) }
    ensures err { OnErr result ((records : List AnyRecord)
        → Keeps (F.bytes kept.old.place) kept.old.sums kept.old.len records
        → Keeps (F.bytes kept.new.place) kept.new.sums kept.new.len records) }
{
    match clock_in(reply) {
        Some(clock) => mark_clock(kept, alloc, clock),
        None => Ok(false),
    }
}

/// Appends a clock, where it is later than the mark so far, and returns whether it was appended. It
/// is not synced. Where the call fails, what was marked stays.
pub fn mark_clock<F: Place>(kept: &mut KeptSums<F>, alloc: Global, clock: u64) -> io::Result<bool>
    ensures ok { IfOk result
        (IsMarkedAt (λ k records. Keeps (F.bytes k.place) k.sums k.len records) clock
        kept.old kept.new) }
    ensures err { OnErr result ((records : List AnyRecord)
        → Keeps (F.bytes kept.old.place) kept.old.sums kept.old.len records
        → Keeps (F.bytes kept.new.place) kept.new.sums kept.new.len records) }
{
    if clock <= kept.noted().mark {
        return Ok(false);
    }
    kept.append(alloc, Record::Mark(clock))?;
    Ok(true)
}
