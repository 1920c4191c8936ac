ghost use Rattle.std.specs.Prelude.{◌≡◌};
ghost use Rattle.ledger_layout.specs.Causes.{cause_of};

use records::Unavailable;
use sqlite_trees::error::StoreError;

/// What an error of the store means to the ledger.
pub fn cause(error: StoreError) -> Unavailable
    ensures { result ≡ cause_of error }
{
    match error {
        StoreError::OutOfMemory => Unavailable::Memory,
        StoreError::Unstorable => Unavailable::Size,
        StoreError::Io | StoreError::Corrupt | StoreError::Full | StoreError::Broken => {
            Unavailable::Disk
        }
    }
}
