ghost use Rattle.std.specs.Prelude.{◌≡◌};
ghost use Rattle.ledger_sql.specs.Causes.{cause_in, done_of, table_fault_in};

use crate::table_fault::TableFault;
use records::Unavailable;
use sqlite::{Error, ErrorCode};
use sqlite_resolve::CompileError;

/// What an error of the database means to the ledger.
pub(crate) fn cause(error: Error) -> Unavailable
    ensures { result ≡ cause_in error }
{
    match error {
        Error::SqliteFailure(ErrorCode::OutOfMemory) => Unavailable::Memory,
        Error::SqliteFailure(
            ErrorCode::SystemIoFailure
            | ErrorCode::DatabaseCorrupt
            | ErrorCode::DiskFull
            | ErrorCode::Closed,
        ) => Unavailable::Disk,
        _ => Unavailable::Size,
    }
}

/// The answer of a statement whose count of rows does not matter.
pub(crate) fn done(answer: Result<usize, Error>) -> Result<(), Unavailable>
    ensures { result ≡ done_of answer }
{
    match answer {
        Ok(_) => Ok(()),
        Err(error) => Err(cause(error)),
    }
}

/// What an error of the database means of a table that is read.
pub(crate) fn table_fault(error: Error) -> TableFault
    ensures { result ≡ table_fault_in error }
{
    match error {
        Error::SqlInputError(CompileError::NoSuchTable) => TableFault::Missing,
        error => TableFault::Unavailable(cause(error)),
    }
}
