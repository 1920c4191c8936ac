//! The program but for its sockets: words in, a text and a status out.
ghost use Rattle.std.specs.Prelude.{map};
ghost use Rattle.sqlite_wal.specs.Files.{image_at};
ghost use Rattle.command_line.specs.Values.{text_in};
ghost use Rattle.commands.specs.OverFiles.{text_of};
ghost use Rattle.commands.specs.Program.{Performs, RunsProgram, IsBesideTold, IsRefusalTold, TellsEnded};
ghost use Rattle.commands.specs.Program.{TellsVersion, line_beside, told};

use crate::changing::TenantChange;
use crate::ended::{Ended, Held};
use crate::leaving::leave_held;
use crate::over_files::{run_check, run_copy, run_migrate, run_statement, run_status, run_stop};
use crate::over_tenants::{run_change, run_tenants};
use crate::reasons::{Place, tell_file_fault};
use command_line::{Command, LineFault, command, version_text};
use command_texts::{Fault, put_text, tell_fault, tell_new_ledger};
use records::{Drain, put_all};
use sqlite_disk::{Disk, Start};
use sqlite_std_file::FileFrom;
use std::alloc::Global;
use std::convert::AsStr;
use std::fmt::Display;

/// Does what the words after the program's name ask for, on files of this machine, and says the
/// status with which the program ends. It is 0, or that of the fault, whose line goes to `err`.
/// Where the words are refused it is 2, with `clap`'s text there. It is 4 where `check` has found
/// damage, which it reports on `out`. After the line of an `unreadable` file the system's reason
/// may stand. It reports on `err` a file that `tenant-add` makes a new ledger, and what `check`,
/// `copy` and `tenants` have found in one that they read. `--version` is answered on `out`. For no
/// words, and for `serve` and `lint`, it does nothing. `St` stands for what the file and its log
/// hold; which one it is matters to the clauses on values alone.
pub fn program<S: AsStr, St: Start, O: Drain + Drop, E: Drain>(
    rt: &HostRuntime,
    words: &[S],
    start: St,
    out: O,
    err: &mut E,
) -> u8
    ensures { RunsProgram ⟦<FileFrom<St> as Disk>⟧ O.written (image_at St.Start)
        (map S.text words.now)
        out (told (E.written err.old) (E.written err.new) (E.failed err.new)) result }
{
    match command(rt.alloc(), words) {
        Ok(asked) => {
            let ended = run(rt, asked, start, out);
            tell(rt, err, ended, Place::of(asked), changes(asked))
        }
        Err(LineFault::Version) => {
            let ended = write_version::<O, FileFrom<St>>(out);
            tell(rt, err, ended, None, false)
        }
        Err(LineFault::Memory) => tell_fault(err, Fault::Unavailable),
        Err(LineFault::Refused(error)) => tell_refusal(rt.alloc(), err, &error),
    }
}

// What `version` and `--version` ask for.
fn write_version<O: Drain + Drop, D: Disk + Drop>(mut out: O) -> Result<Ended<'static, O, D>, Fault>
    ensures { TellsVersion O.written out result }
{
    put_text(&mut out, version_text())?;
    Ok(Ended {
        out,
        is_damaged: false,
        made: None,
        contents: None,
        held: Held::Nothing,
    })
}

// Tells a file that has become a new ledger, or what is in one that was read whole.
fn tell_beside<E: Drain>(err: &mut E, made: Option<&str>, contents: Option<String>)
    ensures { IsBesideTold (line_beside (text_in made.entry) (text_of contents))
        (told (E.written err.old) (E.written err.new) (E.failed err.new)) }
{
    match (made, contents) {
        (Some(path), _) => tell_new_ledger(err, path),
        (None, Some(line)) => {
            let _ = put_text(err, line.as_str());
        }
        (None, None) => {}
    }
}

// Whether a command changes the file.
fn changes(asked: Command<'_>) -> bool {
    matches!(
        asked,
        Command::AddTenant { .. } | Command::ChangeKey { .. } | Command::Migrate { .. }
    )
}

// The status of what a command has come to. Prints its fault. A file that it changed is left with
// its log written back.
fn tell<O: Drop, D: Disk + Drop, E: Drain>(
    rt: &HostRuntime,
    err: &mut E,
    ended: Result<Ended<'_, O, D>, Fault>,
    place: Option<Place<'_>>,
    changes: bool,
) -> u8
    ensures { TellsEnded ended.entry (told (E.written err.old)
        (E.written err.new) (E.failed err.new)) result }
{
    match ended {
        Ok(ended) => {
            tell_beside(err, ended.made, ended.contents);
            leave_held(rt, ended.held, changes);
            if ended.is_damaged {
                Fault::Damaged.status()
            } else {
                0
            }
        }
        Err(fault) => tell_file_fault(rt, err, fault, place),
    }
}

// Why the words are refused, or the help that they ask for, as `clap` tells it.
fn tell_refusal<T: Display, E: Drain>(alloc: Global, err: &mut E, error: &T) -> u8
    ensures { IsRefusalTold (told (E.written err.old)
        (E.written err.new) (E.failed err.new)) result }
{
    match format!(in alloc; "{error}") {
        Ok(text) => {
            let _ = put_all(err, text.as_bytes());
            2
        }
        Err(_) => tell_fault(err, Fault::Unavailable),
    }
}

// Does what is asked for.
fn run<'a, St: Start, O: Drain + Drop>(
    rt: &HostRuntime,
    asked: Command<'a>,
    start: St,
    out: O,
) -> Result<Ended<'a, O, FileFrom<St>>, Fault>
    ensures { Performs O.written (image_at St.Start) asked.entry out result }
{
    match asked {
        Command::Lists | Command::Serve { .. } | Command::Lint { .. } => {
            drop(start);
            Ok(Ended {
                out,
                is_damaged: false,
                made: None,
                contents: None,
                held: Held::Nothing,
            })
        }
        Command::AddTenant { db, name, key } => {
            run_change(rt, TenantChange::Adding, db, name, key, start, out)
        }
        Command::ChangeKey { db, name, key } => {
            run_change(rt, TenantChange::Keying, db, name, key, start, out)
        }
        Command::Statement {
            db,
            tenant,
            account,
            asked: words,
        } => run_statement(rt, db, tenant, account, &words, start, out),
        Command::Check { db } => run_check(rt, db, start, out),
        Command::Migrate { db, to } => run_migrate(rt, db, to, start, out),
        Command::Copy { db, to } => run_copy(rt, db, to, start, out),
        Command::Tenants { db } => run_tenants(rt, db, start, out),
        Command::Status { db, prometheus } => {
            drop(start);
            run_status(rt, db, prometheus, out)
        }
        Command::Stop { db } => {
            drop(start);
            run_stop(rt, db, out)
        }
        Command::Version => {
            drop(start);
            write_version(out)
        }
    }
}
