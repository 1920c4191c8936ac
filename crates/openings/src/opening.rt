//! How the database of a store is opened.

ghost use Rattle.std.specs.Prelude.{◌≡◌, true, false, IfOk, IfErr};
ghost use Rattle.sqlite.specs.Files.{file_state};
ghost use Rattle.sqlite_std_file.specs.File.{IsFresh};
ghost use Rattle.sqlite_wal.specs.Files.{image_at};
ghost use Rattle.openings.specs.Calls.{AreUsable, RefusesUnopened, StandsOn};
ghost use Rattle.openings.specs.AtPath.{HoldHonestly};
ghost use Rattle.openings.specs.Faults.{open_fault_in};
ghost use Rattle.openings.specs.Found.{IsOfLedger, IsOpenAt};

use crate::closing::is_settled;
use audit::{AuditFault, Damage};
use ledger_sql::TableFault;
use records::Unavailable;
use sqlite::{Connection, Error, ErrorCode, FileStore, Files, Options};
use sqlite_disk::{Disk, Start};
use sqlite_std_file::{FileFrom, OpenError as PathError};
use std::alloc::Global;
use std::io::ErrorKind;

/// Why a store was not opened.
#[derive(Clone, Copy, Debug, PartialEq, Eq)]
pub enum OpenFault {
    /// Another process has the files: they are two at a path.
    InUse,
    /// The database refuses the files, or the ledger's tables do not come first in them, or are
    /// not made as a ledger's.
    Unreadable,
    /// The files hold something else.
    NotALedger,
    /// The ledger has to be migrated first.
    OldSchema,
    /// A later program made the ledger.
    NewerSchema,
    /// A tenant's rows are those of no valid machine: the first such place.
    Damaged(Damage),
    Unavailable(Unavailable),
}

impl From<Unavailable> for OpenFault {
    ghost use Rattle.openings.specs.declared.opening.OpenFault.TheVariants.{Unavailable as IsUnavailable};

    ghost from_gives = { λ cause fault. fault ≡ IsUnavailable cause };

    fn from(cause: Unavailable) -> OpenFault {
        OpenFault::Unavailable(cause)
    }
}

impl From<TableFault> for OpenFault {
    ghost use Rattle.openings.specs.Faults.{open_fault_of};

    ghost from_gives = { λ cause fault. fault ≡ open_fault_of cause };

    fn from(cause: TableFault) -> OpenFault {
        match cause {
            TableFault::Missing => OpenFault::Unavailable(Unavailable::Disk),
            TableFault::Unavailable(cause) => OpenFault::Unavailable(cause),
        }
    }
}

impl From<AuditFault> for OpenFault {
    ghost use Rattle.openings.specs.Faults.{damage_fault};

    ghost from_gives = { λ cause fault. fault ≡ damage_fault cause };

    fn from(cause: AuditFault) -> OpenFault {
        match cause {
            AuditFault::Damaged(damage) => OpenFault::Damaged(damage),
            AuditFault::Memory => OpenFault::Unavailable(Unavailable::Memory),
        }
    }
}

/// What an error at an opening means to the ledger.
fn open_fault(error: Error) -> OpenFault
    ensures means { result ≡ open_fault_in error }
    ensures ledger { IsOfLedger result → ⊥ }
{
    match error {
        Error::SqliteFailure(ErrorCode::OutOfMemory) => OpenFault::Unavailable(Unavailable::Memory),
        Error::SqliteFailure(
            ErrorCode::SystemIoFailure | ErrorCode::DiskFull | ErrorCode::Closed,
        ) => OpenFault::Unavailable(Unavailable::Disk),
        Error::SqliteFailure(ErrorCode::TooBig) => OpenFault::Unavailable(Unavailable::Size),
        _ => OpenFault::Unreadable,
    }
}

/// Opens the database in two files, or makes an empty one where there is none.
pub(crate) fn open_on<D: Disk + Drop>(
    alloc: Global,
    files: Files<D>,
    options: Options,
) -> Result<Connection<FileStore<D>>, (OpenFault, Files<D>)>
    requires { AreUsable D.Disk files }
    ensures opened { IfOk result (λ conn. StandsOn D.Disk files IsOpenAt (file_state conn)) }
    ensures refused { IfErr result (RefusesUnopened D.Disk files) }
{
    match Connection::open_files(alloc, files, options) {
        Ok(conn) => {
            is_settled(&conn);
            Ok(conn)
        }
        Err((error, left)) => Err((open_fault(error), left.into_files())),
    }
}

/// The two files at a path, made where they are missing. `:memory:` and a URI are refused, and
/// files that another process has are `InUse`. `St` stands for what they hold.
pub fn files_at<St: Start>(
    rt: &HostRuntime,
    path: &str,
    start: St,
) -> Result<Files<FileFrom<St>>, OpenFault>
    ensures usable { IfOk result (AreUsable ⟦<FileFrom<St> as Disk>⟧) }
    ensures fresh { IfOk result (λ files. IsFresh true files.log × IsFresh false files.db) }
    ensures held { IfOk result (HoldHonestly ⟦<FileFrom<St> as Disk>⟧ (image_at St.Start)) }
    ensures fault { IfErr result (λ fault. IsOfLedger fault → ⊥) }
{
    if path == ":memory:" || path.starts_with("file:") {
        return Err(OpenFault::Unreadable);
    }
    match sqlite_std_file::open(rt, path, start) {
        Ok(files) => Ok(files),
        Err(PathError::Busy) => Err(OpenFault::InUse),
        Err(PathError::OutOfMemory) => Err(OpenFault::Unavailable(Unavailable::Memory)),
        Err(PathError::Io(error)) if error.kind() == ErrorKind::OutOfMemory => {
            Err(OpenFault::Unavailable(Unavailable::Memory))
        }
        Err(_) => Err(OpenFault::Unreadable),
    }
}
