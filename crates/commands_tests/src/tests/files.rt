//! Steps on files of this machine: what is done to a file, and what the program tells of it.

use super::broken::breaks;
use super::firms::{ADDING, Messages};
use chain::InUse;
use command_line::LimitWords;
use command_texts::Fault;
use commands::{Served, program, serve_file};
use file_sums::Record;
use kept_sums::{Access, make_beside};
use listener::Site;
use records::{Drain, Streamed};
use sqlite::{Alter, Connection, File, Options};
use sqlite_disk::Unknown;
use std::alloc::AllocError;
use std::fs;
use std::os::unix::fs::MetadataExt;
use std::test::Fail;
use store::{FullAudit, OpenFault, Store};

/// A step on a file. Words are the program's, but for `--db`, with which they end.
#[derive(Clone, Copy)]
pub enum Step {
    /// Words, their status, and what they write to standard output; nothing is told on standard
    /// error.
    Tells(&'static str, u8, &'static str),
    /// `check` finds the file sound, and says that this is in it.
    Holds(&'static str),
    /// Words, what they write to standard output, and what they say is in the file.
    Says(&'static str, &'static str, &'static str),
    /// The file's log is taken away.
    LosesLog,
    /// Words that make the file a new ledger, and what they write to standard output.
    Makes(&'static str, &'static str),
    /// The file and its log are their owner's alone.
    IsPrivate,
    /// Words, their status, and the fault that they tell on standard error; nothing is written to
    /// standard output.
    Refuses(&'static str, u8, &'static str),
    /// Words that tell that the file is unreadable, since there is none.
    Lacks(&'static str),
    /// Words, and what they have written to a standard output that is full behind it.
    Fills(&'static str, &'static str),
    /// The ledger of 'posted in part' is made; its tenant is `a`.
    Posts,
    /// The firm's transfer of 7 back is sent at this moment.
    SendsBack(u64),
    /// A port on which the file is served, for no replies, and the fault with which that ends.
    Serves(u16, Option<Fault>),
    /// An address on which it is, likewise, on any port.
    Listens(&'static str, Option<Fault>),
    /// These bytes are written over the file while it is served, and this fault is told of the
    /// attempts to open it again.
    Breaks(&'static [u8], Fault),
    /// A statement of SQL is run.
    Changes(&'static str),
    /// These bytes are written to the file in place of what it held.
    Writes(&'static [u8]),
    /// FILE-sums is made with this mark.
    Marks(u64),
}

// What is told of a file that is absent, as errno(3) of Linux names it.
const NO_FILE: &str = "ledgerd: unreadable\nNo such file or directory (os error 2)\n";

/// Takes the steps on a file, which is not there before them, nor behind them.
pub fn take_steps(rt: &HostRuntime, db: &str, steps: &[Step]) -> Result<(), Fail> {
    clear(rt, db)?;
    for step in steps {
        take_step(rt, db, *step)?;
    }
    Ok(clear(rt, db)?)
}

fn take_step(rt: &HostRuntime, db: &str, step: Step) -> Result<(), Fail> {
    match step {
        Step::Tells(words, status, out) => tells(rt, &line(rt, words, db)?, status, out, ""),
        Step::Holds(contents) => says(rt, &line(rt, "check", db)?, "ok\n", contents),
        Step::Says(words, out, contents) => says(rt, &line(rt, words, db)?, out, contents),
        Step::LosesLog => Ok(fs::remove_file(rt, format!(in rt.alloc(); "{db}-wal")?.as_str())?),
        Step::Makes(words, out) => makes(rt, words, db, out),
        Step::IsPrivate => is_private(rt, db),
        Step::Refuses(words, status, fault) => {
            let told = format!(in rt.alloc(); "ledgerd: {fault}\n")?;
            tells(rt, &line(rt, words, db)?, status, "", &told)
        }
        Step::Lacks(words) => tells(rt, &line(rt, words, db)?, 4, "", NO_FILE),
        Step::Fills(words, out) => fills(rt, &line(rt, words, db)?, out),
        Step::Posts => {
            makes(rt, ADDING, db, "added a\n")?;
            send(rt, db, Messages::PostedInPart)
        }
        Step::SendsBack(moment) => send(rt, db, Messages::Back(moment)),
        Step::Serves(port, fault) => serves(rt, db, None, port, fault),
        Step::Listens(address, fault) => serves(rt, db, Some(address), 0, fault),
        Step::Breaks(bytes, fault) => breaks(rt, db, bytes, fault),
        Step::Changes(sql) => change(rt, db, sql),
        Step::Writes(bytes) => Ok(fs::write(rt, db, bytes)?),
        Step::Marks(mark) => {
            let access = Access { rt, path: db };
            let _kept = make_beside(&access, 7, &[Record::Mark(mark)])?;
            Ok(())
        }
    }
}

fn line(rt: &HostRuntime, words: &str, db: &str) -> Result<String, AllocError> {
    format!(in rt.alloc(); "{words} --db={db}")
}

/// Runs the program for the words of a line, and looks at its status and at both of its texts.
pub fn tells(rt: &HostRuntime, line: &str, status: u8, out: &str, err: &str) -> Result<(), Fail> {
    let mut written = Vec::new(rt.alloc());
    let (ended, told) = run_program(rt, line, Streamed::new(&mut written))?;
    expect(line, (ended, &written, &told), (status, out, err))
}

fn says(rt: &HostRuntime, line: &str, out: &str, contents: &str) -> Result<(), Fail> {
    let told = format!(in rt.alloc(); "{contents}\n")?;
    tells(rt, line, 0, out, &told)
}

fn makes(rt: &HostRuntime, words: &str, db: &str, out: &str) -> Result<(), Fail> {
    let told = format!(in rt.alloc(); "new ledger {db}\n")?;
    tells(rt, &line(rt, words, db)?, 0, out, &told)
}

fn is_private(rt: &HostRuntime, db: &str) -> Result<(), Fail> {
    let log = format!(in rt.alloc(); "{db}-wal")?;
    for path in [db, log.as_str()] {
        let mode = fs::metadata(rt, path)?.mode() & 0o777;
        if mode != 0o600 {
            return Err(Fail::new(format_args!("{path} has mode {mode:o}")));
        }
    }
    Ok(())
}

// Looks at a status, at what was written to standard output, and at what was told.
fn expect(line: &str, got: (u8, &[u8], &[u8]), want: (u8, &str, &str)) -> Result<(), Fail> {
    if got == (want.0, want.1.as_bytes(), want.2.as_bytes()) {
        return Ok(());
    }
    Err(Fail::new(format_args!("{line}: {got:?}, and not {want:?}")))
}

// The same with a standard output that takes so many bytes and no more.
fn fills(rt: &HostRuntime, line: &str, out: &str) -> Result<(), Fail> {
    let mut room = vec![in rt.alloc(); 0u8; out.len()]?;
    let (ended, told) = run_program(rt, line, Streamed::new(room.as_mut_slice()))?;
    expect(line, (ended, &room, &told), (3, out, "ledgerd: output\n"))
}

/// The status of the program for the words of a line, and what it tells on standard error.
pub fn run_program<O: Drain + Drop>(
    rt: &HostRuntime,
    line: &str,
    out: O,
) -> Result<(u8, Vec<u8>), Fail> {
    let words: Vec<&str> = line.split_whitespace().collect(rt.alloc())?;
    let mut err = Streamed::new(Vec::new(rt.alloc()));
    let status = program(rt, words.as_slice(), Unknown, out, &mut err);
    Ok((status, err.into_inner()))
}

// Takes a file, its log and its FILE-sums away, if they are there.
fn clear(rt: &HostRuntime, db: &str) -> Result<(), AllocError> {
    let log = format!(in rt.alloc(); "{db}-wal")?;
    let sums = format!(in rt.alloc(); "{db}-sums")?;
    remove(rt, [db, log.as_str()]);
    remove(rt, [sums.as_str(), log.as_str()]);
    Ok(())
}

/// Takes files away, those that are there.
pub fn remove(rt: &HostRuntime, paths: [&str; 2]) {
    for path in paths {
        let _absent = fs::remove_file(rt, path);
    }
}

/// The ledger in a file.
pub fn opened(
    rt: &HostRuntime,
    db: &str,
    options: Options,
) -> Result<InUse<Store<File>>, OpenFault> {
    match Store::open_at(rt, db, Unknown, options, &FullAudit) {
        Ok(store) => Ok(InUse { backend: store }),
        Err((fault, _files)) => Err(fault),
    }
}

// Sends messages of the firm to the ledger in a file.
fn send(rt: &HostRuntime, db: &str, messages: Messages) -> Result<(), Fail> {
    let mut store = opened(rt, db, Options::new(7))?;
    messages.send(rt.alloc(), &mut store);
    Ok(())
}

// Serves a file for no replies, and looks at the fault, or at why it has ended.
fn serves(
    rt: &HostRuntime,
    db: &str,
    address: Option<&str>,
    port: u16,
    want: Option<Fault>,
) -> Result<(), Fail> {
    let site = Site::new(rt);
    let ended = match serve_file(&site, db, address, port, &LimitWords::default(), false, 0) {
        Ok(service) => Ok(service.close()),
        Err(fault) => Err(fault),
    };
    let want = match want {
        Some(fault) => Err(fault),
        None => Ok(Served::Enough),
    };
    if ended == want {
        return Ok(());
    }
    Err(Fail::new(format_args!("served on {address:?} {port}: {ended:?}, and not {want:?}")))
}

// Runs a statement of SQL on a file.
fn change(rt: &HostRuntime, db: &str, sql: &str) -> Result<(), Fail> {
    match Connection::open_from(rt, db, false, Unknown) {
        Ok(mut conn) => run_sql(&mut conn, sql),
        Err((error, _)) => Err(error.into()),
    }
}

fn run_sql<S: Alter>(conn: &mut Connection<S>, sql: &str) -> Result<(), Fail> {
    conn.execute(sql, &[])?;
    Ok(())
}
