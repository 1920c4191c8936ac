use audit::{AuditFault, Damage};
use openings::opening::OpenFault;
use records::Unavailable;
use std::alloc::AllocError;
use std::error::Error;
use std::fmt;

/// Why a ledger was not migrated. Nothing has changed; only where its disk failed may the next
/// opening find the whole of the newer ledger.
#[derive(Clone, Copy, Debug, PartialEq, Eq)]
pub enum MigrateFault {
    /// The ledger has a newer version of the schema than the one that is asked for.
    NewerSchema,
    /// A tenant's rows are those of no valid machine: the first such place.
    Damaged(Damage),
    Unavailable(Unavailable),
}

impl fmt::Display for MigrateFault {
    fn fmt<W: fmt::Write>(&self, f: &mut fmt::Formatter<W>) -> fmt::Result {
        match self {
            MigrateFault::NewerSchema => write!(f, "newer_schema"),
            MigrateFault::Damaged(_) => write!(f, "damaged"),
            MigrateFault::Unavailable(_) => write!(f, "unavailable"),
        }
    }
}

impl Error for MigrateFault {}

impl From<Unavailable> for MigrateFault {
    ghost use Rattle.std.specs.Prelude.{◌≡◌};
    ghost use Rattle.migrate.specs.declared.fault.MigrateFault.TheVariants.{Unavailable as IsUnavailable};

    ghost from_gives = { λ cause fault. fault ≡ IsUnavailable cause };

    fn from(cause: Unavailable) -> MigrateFault {
        MigrateFault::Unavailable(cause)
    }
}

impl From<AllocError> for MigrateFault {
    ghost use Rattle.std.specs.Prelude.{◌≡◌};
    ghost use Rattle.records.specs.declared.unavailable.Unavailable.TheVariants.{Memory};
    ghost use Rattle.migrate.specs.declared.fault.MigrateFault.TheVariants.{Unavailable as IsUnavailable};

    ghost from_gives = { λ _ fault. fault ≡ IsUnavailable Memory };

    fn from(_cause: AllocError) -> MigrateFault {
        MigrateFault::Unavailable(Unavailable::Memory)
    }
}

impl From<AuditFault> for MigrateFault {
    ghost use Rattle.std.specs.Prelude.{◌≡◌};
    ghost use Rattle.migrate.specs.Faults.{audit_fault};

    ghost from_gives = { λ cause fault. fault ≡ audit_fault cause };

    fn from(cause: AuditFault) -> MigrateFault {
        match cause {
            AuditFault::Damaged(damage) => MigrateFault::Damaged(damage),
            AuditFault::Memory => MigrateFault::Unavailable(Unavailable::Memory),
        }
    }
}

// An upgrade is handed rows that were audited, and looks at what it has written of them, so that of
// its faults only `Unavailable` comes.
impl From<OpenFault> for MigrateFault {
    ghost use Rattle.std.specs.Prelude.{◌≡◌};
    ghost use Rattle.migrate.specs.Faults.{upgrade_fault};

    ghost from_gives = { λ cause fault. fault ≡ upgrade_fault cause };

    fn from(cause: OpenFault) -> MigrateFault {
        match cause {
            OpenFault::Unavailable(why) => MigrateFault::Unavailable(why),
            _ => MigrateFault::Unavailable(Unavailable::Size),
        }
    }
}
