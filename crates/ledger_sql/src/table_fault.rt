ghost use Rattle.std.specs.Prelude.{◌≡◌, Ok, IfOk, IsErr, OnErr};

use crate::cause::table_fault;
use records::Unavailable;
use std::alloc::AllocFailed;
use std::error::Error;
use std::fmt;
use std::fmt::Display;

/// Why a table was not read. No row has changed, but an open transaction may be undone.
#[derive(Clone, Copy, Debug, PartialEq, Eq)]
pub enum TableFault {
    /// The file has no table of this name.
    Missing,
    Unavailable(Unavailable),
}

impl Display for TableFault {
    fn fmt<W: fmt::Write>(&self, f: &mut fmt::Formatter<W>) -> fmt::Result {
        match self {
            TableFault::Missing => f.write_str("no such table"),
            TableFault::Unavailable(cause) => cause.fmt(f),
        }
    }
}

impl Error for TableFault {}

impl From<Unavailable> for TableFault {
    ghost use Rattle.ledger_sql.specs.declared.table_fault.TableFault.TheVariants.{Unavailable as IsUnavailable};

    ghost from_gives = { λ cause fault. fault ≡ IsUnavailable cause };

    fn from(cause: Unavailable) -> TableFault {
        TableFault::Unavailable(cause)
    }
}

impl<T: Drop> From<AllocFailed<T>> for TableFault {
    ghost use Rattle.records.specs.declared.unavailable.Unavailable.TheVariants.{Memory};
    ghost use Rattle.ledger_sql.specs.declared.table_fault.TableFault.TheVariants.{Unavailable as IsUnavailable};

    ghost from_gives = { λ _ fault. fault ≡ IsUnavailable Memory };

    fn from(_e: AllocFailed<T>) -> TableFault {
        TableFault::Unavailable(Unavailable::Memory)
    }
}

impl From<sqlite::Error> for TableFault {
    ghost use Rattle.ledger_sql.specs.Causes.{table_fault_in};

    ghost from_gives = { λ error fault. fault ≡ table_fault_in error };

    fn from(error: sqlite::Error) -> TableFault {
        table_fault(error)
    }
}

/// Where the schema is known, no table is missing, and a fault is told by its cause.
impl From<TableFault> for Unavailable {
    ghost use Rattle.ledger_sql.specs.TableFaults.{cause_of};

    ghost from_gives = { λ fault cause. cause ≡ cause_of fault };

    fn from(fault: TableFault) -> Unavailable {
        match fault {
            TableFault::Missing => Unavailable::Size,
            TableFault::Unavailable(cause) => cause,
        }
    }
}

/// What was read of a table that is there.
pub(crate) fn known<T: Drop>(read: Result<T, TableFault>) -> Result<T, Unavailable>
    ensures ok { IfOk result (λ x. read ≡ Ok x) }
    ensures err { OnErr result (IsErr read) }
{
    Ok(read?)
}
