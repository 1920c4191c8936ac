//! What an opening does with what FILE-sums says.

ghost use Rattle.std.specs.Prelude.{◌≡◌, ◌<◌, ◌↔◌, IsTrue};
ghost use Rattle.file_sums.specs.Openings.{opening_of, row_of};

use crate::{LogNoted, Noted, Record};

/// What an opening finds in the place of a log.
#[derive(Clone, Copy, Debug, PartialEq, Eq)]
pub enum LogFound {
    /// Nothing, or what has no signed header.
    Unsigned,
    /// A signed header with this salt, and no room for a frame behind it: the database makes
    /// another header.
    Short(u64),
    /// A log with this salt, and no frame in it.
    Empty(u64),
    /// A log with this salt, and frames.
    Filled(u64),
}

/// How a file is opened.
#[derive(Clone, Copy, Debug, PartialEq, Eq)]
pub enum Opening {
    /// All of it is read and looked at, and then FILE-sums is made anew.
    Full,
    /// It is what the run before has left. The record, if there is one, is appended before
    /// anything else is done.
    Trusted(Option<Record>),
}

/// How a file is opened whose FILE-sums says this, beside the log that was found. `is_known` tells
/// that each page is in the log, or is in the file and has a digest. Where there is no FILE-sums, or
/// none of this format, nothing is noted.
pub fn opening_of(noted: &Noted, found: LogFound, is_known: bool) -> Opening
    ensures { result ≡ opening_of noted.now found is_known }
{
    if noted.has_doubt || !is_known {
        return Opening::Full;
    }
    match row_of(noted.log, found) {
        Some(note) => Opening::Trusted(note),
        None => Opening::Full,
    }
}

// What is appended before a trusted opening; none where the opening is full.
fn row_of(noted: LogNoted, found: LogFound) -> Option<Option<Record>>
    ensures { result ≡ row_of noted found }
{
    match (noted, found) {
        (LogNoted::InUse(salt), LogFound::Short(other)) if salt == other => Some(Some(
            Record::NoLog,
        )),
        (LogNoted::InUse(salt), LogFound::Empty(other) | LogFound::Filled(other))
            if salt == other => { Some(None) }
        (LogNoted::Done(_), LogFound::Unsigned | LogFound::Short(_)) => Some(Some(Record::NoLog)),
        (LogNoted::Done(_), LogFound::Empty(other)) => Some(Some(Record::Log(other))),
        (LogNoted::Done(salt), LogFound::Filled(other)) if salt == other => {
            Some(Some(Record::Log(other)))
        }
        _ => None,
    }
}

/// Whether commits that were answered are missing from a ledger whose latest clock is this one:
/// the mark names a later moment.
pub fn is_behind(noted: &Noted, clock: u64) -> bool
    ensures { IsTrue result ↔ (clock < noted.now.mark) }
{
    clock < noted.mark
}
