ghost use Rattle.std.specs.Prelude.{◌≡◌};
ghost use Rattle.std.specs.IoError.{error_kind};
ghost use Rattle.copies.specs.Faults.{fault_of, log_fault, path_fault};
ghost use Rattle.copies.specs.declared.fault.CopyFault.TheVariants.{Memory};

use sqlite_std_file::OpenError;
use sqlite_wal::Error;
use std::alloc::{AllocError, AllocFailed};
use std::io::{self, ErrorKind};

/// Why no copy was made. Nothing is left of it then.
#[derive(Clone, Copy, Debug, PartialEq, Eq)]
pub enum CopyFault {
    /// One of its names is taken.
    Exists,
    /// The ledger's files could not be read, or the copy's not be written.
    Failed,
    /// Memory is wanting.
    Memory,
}

impl From<AllocError> for CopyFault {
    ghost from_gives = { λ _ fault. fault ≡ Memory };

    fn from(_error: AllocError) -> CopyFault {
        CopyFault::Memory
    }
}

impl From<io::Error> for CopyFault {
    ghost from_gives = { λ error fault. fault ≡ fault_of (error_kind error) };

    fn from(error: io::Error) -> CopyFault {
        match error.kind() {
            ErrorKind::OutOfMemory => CopyFault::Memory,
            _ => CopyFault::Failed,
        }
    }
}

impl<T: Drop> From<AllocFailed<T>> for CopyFault {
    ghost from_gives = { λ _ fault. fault ≡ Memory };

    fn from(_error: AllocFailed<T>) -> CopyFault {
        CopyFault::Memory
    }
}

impl From<Error> for CopyFault {
    ghost from_gives = { λ error fault. fault ≡ log_fault error };

    fn from(error: Error) -> CopyFault {
        match error {
            Error::Io(error) => CopyFault::from(error),
            Error::OutOfMemory => CopyFault::Memory,
            _ => CopyFault::Failed,
        }
    }
}

impl From<OpenError> for CopyFault {
    ghost from_gives = { λ error fault. fault ≡ path_fault error };

    fn from(error: OpenError) -> CopyFault {
        match error {
            OpenError::Io(error) => CopyFault::from(error),
            OpenError::OutOfMemory => CopyFault::Memory,
            OpenError::Busy | OpenError::HotJournal => CopyFault::Failed,
        }
    }
}
