//! The ledger in a file.
ghost use Rattle.std.specs.Prelude.{◌≡◌, IfErr, IfOk, MatchResult};
ghost use Rattle.sqlite_wal.specs.Files.{image_at};
ghost use Rattle.sqlite_wal.specs.Recovery.{Image};
ghost use Rattle.migrate.specs.Ledgers.{IsMigratable, IsOpenedToMigrate};
ghost use Rattle.openings.specs.Found.{AreOnlyThere, Yields};
ghost use Rattle.store.specs.Stores.{AnswersCalls};
ghost use Rattle.commands.specs.Holding.{IsOpenedOrMade, IsFoundAs, IsFrom, IsMade};
ghost use Rattle.openings.specs.Told.{Warrants};
ghost use Rattle.commands.specs.Openings.{HasFound, IsFoundFault, IsOpeningFault, IsUnopened, open_fault};
ghost use Rattle.commands.specs.Openings.{RefusesImage, RefusesOlder, RefusesSome};

use crate::counting::CountingAudit;
use crate::marked::{begin_marks, forget, is_lacking};
use audit::Damage;
use chain::InUse;
use command_texts::Fault;
use metered_disk::{Meter, Metered, measured};
use migrate::LedgerOfVersion;
use openings::opening::files_at;
use records::Unavailable;
use reply_marks::Marks;
use sqlite::{Files, Options};
use sqlite_disk::{Disk, Start};
use sqlite_std_file::{File, FileFrom};
use std::fs::{self, OpenOptions};
use std::hash::{BuildHasher, RandomState};
use std::io::{self, ErrorKind};
use std::os::unix::fs::OpenOptionsExt;
use store::{Audit, OpenFault, Store};

/// How many pages of 4,096 bytes a command keeps in memory, of those that it read and of those that
/// it wrote.
const PAGES: usize = 2_000;

/// The same of a ledger that is served: 80 megabytes.
const SERVED_PAGES: usize = 20_000;

/// Who may read and write a file that is made.
const OWNER_ALONE: u32 = 0o600;

/// What stands at a path, before anything is opened.
#[derive(Clone, Copy, Debug, PartialEq, Eq)]
enum Found {
    Absent,
    Empty,
    Filled,
}

/// The ledger in a file that is there. Only `open_or_make` makes one.
pub(crate) fn open_file<St: Start>(
    rt: &HostRuntime,
    path: &str,
    start: St,
    audit: &CountingAudit,
) -> Result<InUse<Store<FileFrom<St>>>, Fault>
    ensures { MatchResult result (IsFrom (image_at St.Start))
        (RefusesImage ⟦<FileFrom<St> as Disk>⟧ (image_at St.Start)) }
{
    let options = prepared(rt, path)?;
    match Store::open_at(rt, path, start, options, audit) {
        Ok(store) => {
            if is_lacking(rt, path, audit.clock()) {
                return Err(Fault::Behind);
            }
            Ok(InUse { backend: store })
        }
        Err((fault, _files)) => Err(open_fault(fault)),
    }
}

/// A file that is served, whose calls a meter counts.
pub type ServedFile<'a> = Metered<'a, File, HostRuntime>;

/// The ledger in a file that is there, to be served, after an audit. Replies are marked from then
/// on.
pub(crate) fn open_served<'a, St: Start>(
    rt: &'a HostRuntime,
    path: &str,
    start: St,
    audit: &CountingAudit,
    meter: &'a Meter,
    marks: &Marks<'_>,
) -> Result<InUse<Store<Metered<'a, FileFrom<St>, HostRuntime>>>, Fault>
    ensures ready { IfOk result AnswersCalls }
    ensures own { IfErr result
        (RefusesImage ⟦<Metered<'a, FileFrom<St>, HostRuntime> as Disk>⟧ (image_at St.Start)) }
    ensures fault { IfErr result
        (RefusesSome ⟦<Metered<'a, FileFrom<St>, HostRuntime> as Disk>⟧) }
{
    marks.end();
    match open_measured(rt, path, start, audit, meter) {
        Ok(store) => {
            begin_marks(rt, path, audit.clock(), marks)?;
            Ok(store)
        }
        Err(fault) => Err(open_fault(fault)),
    }
}

fn open_measured<'a, St: Start, A: Audit>(
    rt: &'a HostRuntime,
    path: &str,
    start: St,
    audit: &A,
    meter: &'a Meter,
) -> Result<InUse<Store<Metered<'a, FileFrom<St>, HostRuntime>>>, OpenFault>
    ensures ready { IfOk result AnswersCalls }
    ensures fault { IfErr result (IsFoundFault
        (HasFound ⟦<Metered<'a, FileFrom<St>, HostRuntime> as Disk>⟧ Warrants (image_at St.Start))) }
{
    find(rt, path)?;
    let files = measured(files_at(rt, path, start)?, rt, meter);
    match Store::open(rt.alloc(), files, options(rt, SERVED_PAGES)?, audit) {
        Ok(store) => Ok(InUse { backend: store }),
        Err((fault, _files)) => Err(fault),
    }
}

/// A ledger that was opened, or made.
#[derive(Drop)]
pub(crate) struct Opened<D: Disk + Drop> {
    pub(crate) store: InUse<Store<D>>,
    pub(crate) is_new: bool,
}

/// The ledger in a file, which is made where the file is absent or empty, or a database without
/// tables, as a making that was cut short leaves it.
pub(crate) fn open_or_make<St: Start>(
    rt: &HostRuntime,
    path: &str,
    start: St,
) -> Result<Opened<FileFrom<St>>, Fault>
    ensures { MatchResult result
        (λ opened. IsOpenedOrMade opened.is_new (image_at St.Start) opened.store)
        (RefusesImage ⟦<FileFrom<St> as Disk>⟧ (image_at St.Start)) }
{
    match look(rt, path).map_err(open_fault)? {
        Found::Absent => {
            make_file(rt, path)?;
            make(rt, path, start)
        }
        Found::Empty => make(rt, path, start),
        Found::Filled => open_or_make_in(rt, path, start, &CountingAudit::new()),
    }
}

/// The ledger in a file that is there, which may have an older version.
pub(crate) fn open_to_migrate<St: Start>(
    rt: &HostRuntime,
    path: &str,
    start: St,
) -> Result<LedgerOfVersion<FileFrom<St>>, Fault>
    ensures migratable { IfOk result IsMigratable }
    ensures opened { IfOk result (IsOpenedToMigrate (image_at St.Start)) }
    ensures fault { IfErr result (RefusesOlder ⟦<FileFrom<St> as Disk>⟧ (image_at St.Start)) }
{
    let options = prepared(rt, path)?;
    let audit = CountingAudit::new();
    match LedgerOfVersion::open_for_migration_at(rt, path, start, options, &audit) {
        Ok(ledger) => {
            if is_lacking(rt, path, audit.clock()) {
                return Err(Fault::Behind);
            }
            Ok(ledger)
        }
        Err((fault, _files)) => Err(open_fault(fault)),
    }
}

/// What an audit of the ledger in a file has found.
#[derive(Drop)]
pub(crate) enum Audited<D: Disk + Drop> {
    /// No damage: it is open.
    Sound(InUse<Store<D>>),
    /// The first damage, and the files.
    Damaged(Damage, Files<D>),
}

/// Audits the ledger in a file that is there.
pub(crate) fn examine<St: Start>(
    rt: &HostRuntime,
    path: &str,
    start: St,
    audit: &CountingAudit,
) -> Result<Audited<FileFrom<St>>, Fault>
    ensures { MatchResult result (IsFoundAs (image_at St.Start))
        (RefusesImage ⟦<FileFrom<St> as Disk>⟧ (image_at St.Start)) }
{
    let options = prepared(rt, path)?;
    match Store::open_at(rt, path, start, options, audit) {
        Ok(store) => {
            if is_lacking(rt, path, audit.clock()) {
                return Err(Fault::Behind);
            }
            Ok(Audited::Sound(InUse { backend: store }))
        }
        Err((OpenFault::Damaged(damage), Some(files))) => Ok(Audited::Damaged(damage, files)),
        Err((fault, _files)) => Err(open_fault(fault)),
    }
}

// How a file is opened that is there.
fn prepared(rt: &HostRuntime, path: &str) -> Result<Options, Fault>
    ensures { IfErr result IsUnopened }
{
    match find(rt, path) {
        Ok(()) => small_options(rt),
        Err(fault) => Err(open_fault(fault)),
    }
}

// Opening would make a database of a file that is absent or empty, so it is looked for first.
fn find(rt: &HostRuntime, path: &str) -> Result<(), OpenFault>
    ensures { IfErr result (λ fault. IsUnopened (open_fault fault)) }
{
    match look(rt, path)? {
        Found::Absent => Err(OpenFault::Unreadable),
        Found::Empty => Err(OpenFault::NotALedger),
        Found::Filled => Ok(()),
    }
}

fn look(rt: &HostRuntime, path: &str) -> Result<Found, OpenFault>
    ensures { IfErr result (λ fault. IsUnopened (open_fault fault)) }
{
    match fs::metadata(rt, path) {
        Ok(found) if found.len() == 0 => Ok(Found::Empty),
        Ok(_) => Ok(Found::Filled),
        Err(error) => match error.kind() {
            ErrorKind::NotFound => Ok(Found::Absent),
            ErrorKind::OutOfMemory => Err(OpenFault::Unavailable(Unavailable::Memory)),
            _ => Err(OpenFault::Unreadable),
        },
    }
}

/// Makes an empty file for its owner alone. A log that is made beside it gets the same mode.
pub(crate) fn create_private(rt: &HostRuntime, path: &str) -> io::Result<fs::File> {
    OpenOptions::new()
        .write(true)
        .create_new(true)
        .mode(OWNER_ALONE)
        .open(rt, path)
}

/// Whether an opening takes a name for a path. It refuses others.
pub(crate) fn is_path(name: &str) -> bool {
    name != ":memory:" && !name.starts_with("file:")
}

// Makes an absent file. A name that something else has by now is left to the opening, and so is one
// that is no path.
fn make_file(rt: &HostRuntime, path: &str) -> Result<(), Fault>
    ensures { IfErr result IsUnopened }
{
    if !is_path(path) {
        return Ok(());
    }
    match create_private(rt, path) {
        Ok(_file) => Ok(()),
        Err(error) => match error.kind() {
            ErrorKind::AlreadyExists => Ok(()),
            ErrorKind::OutOfMemory => Err(Fault::Unavailable),
            _ => Err(Fault::Unreadable),
        },
    }
}

fn make<St: Start>(rt: &HostRuntime, path: &str, start: St) -> Result<Opened<FileFrom<St>>, Fault>
    ensures { MatchResult result
        (λ opened. IsOpenedOrMade opened.is_new (image_at St.Start) opened.store)
        (RefusesImage ⟦<FileFrom<St> as Disk>⟧ (image_at St.Start)) }
{
    let options = small_options(rt)?;
    forget(rt, path)?;
    match Store::create_at(rt, path, start, options) {
        Ok(store) => Ok(Opened {
            store: InUse { backend: store },
            is_new: true,
        }),
        Err((fault, _files)) => Err(open_fault(fault)),
    }
}

// The ledger in a database that is there, or made in it where it is no ledger, with no second
// opening of the path.
fn open_or_make_in<St: Start>(
    rt: &HostRuntime,
    path: &str,
    start: St,
    audit: &CountingAudit,
) -> Result<Opened<FileFrom<St>>, Fault>
    ensures { MatchResult result
        (λ opened. IsOpenedOrMade opened.is_new (image_at St.Start) opened.store)
        (RefusesImage ⟦<FileFrom<St> as Disk>⟧ (image_at St.Start)) }
{
    let options = small_options(rt)?;
    match Store::open_at(rt, path, start, options, audit) {
        Ok(store) => {
            if is_lacking(rt, path, audit.clock()) {
                return Err(Fault::Behind);
            }
            Ok(Opened {
                store: InUse { backend: store },
                is_new: false,
            })
        }
        Err((OpenFault::NotALedger, Some(files))) => Ok(Opened {
            store: make_in(rt, path, files, options)?,
            is_new: true,
        }),
        Err((fault, _files)) => Err(open_fault(fault)),
    }
}

// Makes a ledger in the files of a database that is none: tables of anything else stay as they are.
fn make_in<D: Disk + Drop>(
    rt: &HostRuntime,
    path: &str,
    files: Files<D>,
    options: Options,
) -> Result<InUse<Store<D>>, Fault>
    ensures made { IfOk result (λ store. (image : Image) → Yields D.Disk files (AreOnlyThere image)
        → IsMade image store) }
    ensures fault { IfErr result
        (λ fault. (image : Image) → Yields D.Disk files (AreOnlyThere image)
        → RefusesImage D.Disk image fault) }
{
    if !files.may_be_used() {
        return Err(Fault::Unavailable);
    }
    forget(rt, path)?;
    match Store::create(rt.alloc(), files, options) {
        Ok(store) => Ok(InUse { backend: store }),
        Err((OpenFault::Unreadable, _files)) => Err(Fault::NotALedger),
        Err((fault, _files)) => Err(open_fault(fault)),
    }
}

// How a command opens a file.
fn small_options(rt: &HostRuntime) -> Result<Options, Fault>
    ensures { IfErr result IsUnopened }
{
    match options(rt, PAGES) {
        Ok(options) => Ok(options),
        Err(fault) => Err(open_fault(fault)),
    }
}

// The salts of the log are drawn at random.
fn options(rt: &HostRuntime, pages: usize) -> Result<Options, OpenFault>
    ensures { IfErr result (λ fault. IsUnopened (open_fault fault)) }
{
    match RandomState::new(rt) {
        Ok(random) => Ok(Options {
            cache_pages: pages,
            spill_pages: pages,
            ..Options::new(random.hash_one(&0u8))
        }),
        Err(_) => Err(OpenFault::Unavailable(Unavailable::Disk)),
    }
}

/// What the program tells where a file is not opened.
pub(crate) fn open_fault(fault: OpenFault) -> Fault
    ensures told { result ≡ open_fault fault }
    ensures named { IsOpeningFault result }
{
    match fault {
        OpenFault::InUse => Fault::InUse,
        OpenFault::Unreadable => Fault::Unreadable,
        OpenFault::NotALedger => Fault::NotALedger,
        OpenFault::OldSchema => Fault::OldSchema,
        OpenFault::NewerSchema => Fault::NewerSchema,
        OpenFault::Damaged(_) => Fault::Damaged,
        OpenFault::Unavailable(_) => Fault::Unavailable,
    }
}
