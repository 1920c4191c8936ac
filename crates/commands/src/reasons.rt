//! Why there is no file at a path, as the system tells it.
ghost use Rattle.std.specs.Prelude.{◌≡◌};
ghost use Rattle.command_texts.specs.Faults.{status_of};
ghost use Rattle.command_texts.specs.Lines.{IsFaultWritten};
ghost use Rattle.commands.specs.Program.{TellsFileFault, told};

use crate::opening::{create_private, is_path};
use command_line::Command;
use command_texts::{Fault, tell_fault, tell_fault_for};
use records::Drain;
use std::fs::{self, OpenOptions};
use std::io::{self, ErrorKind};

/// What can be done about a ledger that lacks commits.
const ADVICE: &str =
    "answered commits are missing: put back the file and the log that were served last; \
    to go on without them, remove FILE-sums";

/// The file that a command works on. Nothing in this process has it open.
#[derive(Clone, Copy, Debug, PartialEq, Eq)]
pub struct Place<'a> {
    pub path: &'a str,
    /// Whether the command makes it where it is absent.
    pub is_made: bool,
}

impl<'a> Place<'a> {
    /// That of a command, if it has one.
    pub(crate) fn of(asked: Command<'a>) -> Option<Place<'a>> {
        match asked {
            Command::Lists | Command::Lint { .. } | Command::Version => None,
            Command::AddTenant { db, .. } => Some(Place {
                path: db,
                is_made: true,
            }),
            Command::Serve { db, .. }
            | Command::ChangeKey { db, .. }
            | Command::Statement { db, .. }
            | Command::Check { db }
            | Command::Tenants { db }
            | Command::Status { db, .. }
            | Command::Stop { db }
            | Command::Copy { db, .. }
            | Command::Migrate { db, .. } => Some(Place {
                path: db,
                is_made: false,
            }),
        }
    }

    // What the system answers who would read and write the file, where it refuses that.
    fn refusal(self, rt: &HostRuntime) -> Option<io::Error> {
        match fs::metadata(rt, self.path) {
            Ok(found) if found.is_file() => OpenOptions::new()
                .read(true)
                .write(true)
                .open(rt, self.path)
                .err(),
            Ok(_) => None,
            Err(error) if self.is_made && error.kind() == ErrorKind::NotFound => {
                self.making_refusal(rt)
            }
            Err(error) => Some(error),
        }
    }

    // What it answers who would make the file. One that is made by that stays empty, as a making
    // leaves it that was cut short: by now it may be somebody else's.
    fn making_refusal(self, rt: &HostRuntime) -> Option<io::Error> {
        if is_path(self.path) {
            create_private(rt, self.path).err()
        } else {
            None
        }
    }
}

// The same, as a text, where memory suffices.
fn reason(rt: &HostRuntime, place: Option<Place<'_>>) -> Option<String> {
    let error = place?.refusal(rt)?;
    format!(in rt.alloc(); "{error}").ok()
}

// Tells a fault, and the system's reason, where it has one.
fn tell_both<E: Drain>(rt: &HostRuntime, err: &mut E, fault: Fault, reason: Option<String>) -> u8
    ensures status { result ≡ status_of fault }
    ensures lines { IsFaultWritten (E.written err.old) (E.written err.new)
        (E.failed err.new) fault }
{
    match reason {
        Some(text) => tell_fault_for(rt.alloc(), err, fault, text.as_str()),
        None => tell_fault(err, fault),
    }
}

/// Tells a fault, and of a ledger that lacks commits what can be done.
pub(crate) fn tell_advised<E: Drain>(rt: &HostRuntime, err: &mut E, fault: Fault) -> u8
    ensures { TellsFileFault fault (told (E.written err.old)
        (E.written err.new) (E.failed err.new)) result }
{
    match fault {
        Fault::Behind => tell_fault_for(rt.alloc(), err, fault, ADVICE),
        _ => tell_fault(err, fault),
    }
}

/// Tells a fault, of a file that is unreadable with what the system answers who would read it.
pub fn tell_file_fault<E: Drain>(
    rt: &HostRuntime,
    err: &mut E,
    fault: Fault,
    place: Option<Place<'_>>,
) -> u8
    ensures { TellsFileFault fault (told (E.written err.old)
        (E.written err.new) (E.failed err.new)) result }
{
    match fault {
        Fault::Unreadable => tell_both(rt, err, fault, reason(rt, place)),
        _ => tell_advised(rt, err, fault),
    }
}
