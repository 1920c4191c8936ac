ghost use Rattle.std.specs.Prelude.{◌≡◌};
ghost use Rattle.statement.specs.Fault.{IsSinkFault};
ghost use Rattle.statement.specs.declared.fault.StatementFault.TheVariants.{Write};

use records::{Failed, SinkFault};

/// Why a statement was not written to its end.
#[derive(Clone, Copy, Debug, PartialEq, Eq)]
pub enum StatementFault {
    /// The writer failed. It has what was written before.
    Write,
    /// Memory ran out.
    Memory,
}

impl From<Failed> for StatementFault {
    ghost from_gives = { λ _ fault. fault ≡ Write };

    fn from(_error: Failed) -> StatementFault {
        StatementFault::Write
    }
}

impl From<StatementFault> for SinkFault {
    ghost from_gives = { IsSinkFault };

    fn from(fault: StatementFault) -> SinkFault {
        match fault {
            StatementFault::Write => SinkFault::Write,
            StatementFault::Memory => SinkFault::Memory,
        }
    }
}
