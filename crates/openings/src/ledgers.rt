//! Ledgers in two files, opened once all of them was looked at.

ghost use Rattle.std.specs.Prelude.{IfOk, IfErr};
ghost use Rattle.stored_ledgers.specs.Resting.{IsServing};
ghost use Rattle.openings.specs.Calls.{AreUsable, RefusesBy, StandsOn};
ghost use Rattle.openings.specs.OpenTables.{open_state};
ghost use Rattle.openings.specs.Opened.{WasOpenedOn};
ghost use Rattle.openings.specs.Told.{IsSoundLedger, Warrants};

use crate::auditing::Audit;
use crate::inspecting::{Inspection, open_telling};
use crate::open_tables::OpenTables;
use crate::opened::examine;
use crate::opening::OpenFault;
use crate::refused::Refused;
use sqlite::{Alter, Connection, Files, Options};
use sqlite_disk::Disk;
use std::alloc::Global;
use stored_ledgers::batches::DueSets;

/// All of a ledger of the current version is looked at, to be served.
#[derive(Drop)]
struct ServedInspection<'a, A: Audit> {
    audit: &'a A,
}

impl<A: Audit> Inspection for ServedInspection<'_, A> {
    type Found = DueSets;

    ghost use Rattle.openings.specs.Opened.{CanServeOrdered};
    ghost use Rattle.openings.specs.Told.{IsSoundLedger, Warrants};

    ghost known = { λ _. Unit {0} };

    ghost finds = { λ sets db. CanServeOrdered sets db × IsSoundLedger db };

    ghost refuses = { λ fault db. Warrants fault db };

    fn inspect<S: Alter>(
        &self,
        alloc: Global,
        conn: &mut Connection<S>,
    ) -> Result<DueSets, OpenFault> {
        examine(alloc, conn, self.audit)
    }
}

/// Opens a ledger of the current version, with what is due of its tenants. The files are given back
/// where it is refused, and it is told whether they hold what they held.
pub fn open_ledger<D: Disk + Drop, A: Audit>(
    alloc: Global,
    files: Files<D>,
    options: Options,
    audit: &A,
) -> Result<(OpenTables<D>, DueSets), (Refused, Files<D>)>
    requires { AreUsable D.Disk files }
    ensures serves { IfOk result (λ it. IsServing it.1 (open_state it.0)) }
    ensures opened { IfOk result (λ it. StandsOn D.Disk files
        (λ image s. WasOpenedOn image s × IsSoundLedger s.now) (open_state it.0)) }
    ensures refused { IfErr result (RefusesBy D.Disk Warrants files) }
{
    open_telling(alloc, files, options, &ServedInspection { audit })
}
