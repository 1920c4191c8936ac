//! The version of the schema that a file names.

ghost use Rattle.std.specs.Prelude.{◌≡◌, ◌≤◌, pos, [], ◌∷◌, IfOk, IfErr};
ghost use Rattle.openings.specs.Calls.{Examines, IsNamedBy, IsOfVersion};
ghost use Rattle.openings.specs.Told.{NamesVersionOf, LacksVersion, Warrants};

use crate::opening::OpenFault;
use crate::standing::version_refusal;
use ledger_sql::listing::list_versions;
use sqlite::{Alter, Connection};
use std::alloc::Global;

/// The version of the schema that a new ledger has.
pub const CURRENT_VERSION: u32 = 3;

/// The version that a file names. It only reads.
pub fn find_version<S: Alter>(alloc: Global, conn: &mut Connection<S>) -> Result<u32, OpenFault>
    ensures examines { Examines (λ version. NamesVersionOf (λ number. number ≡ pos version))
        Warrants S.Store conn.old conn.new result }
    ensures known { IfOk result (λ version. (1 ≤ version) × (version ≤ CURRENT_VERSION)) }
    ensures only { IfErr result IsOfVersion }
{
    if let Some(fault) = version_refusal(conn.schema()) {
        return Err(fault);
    }
    let versions = list_versions(alloc, conn)?;
    one_version(versions.as_slice())
}

fn one_version(versions: &[i64]) -> Result<u32, OpenFault>
    ensures named { IfOk result (IsNamedBy versions.now) }
    ensures lacks { IfErr result (λ fault. LacksVersion fault versions.now) }
{
    match versions {
        [version] => known_version(*version),
        _ => Err(OpenFault::NotALedger),
    }
}

/// The version with this number, if a ledger may have it.
fn known_version(number: i64) -> Result<u32, OpenFault>
    ensures named { IfOk result (IsNamedBy (number ∷ [])) }
    ensures lacks { IfErr result (λ fault. LacksVersion fault (number ∷ [])) }
{
    if number < 1 {
        return Err(OpenFault::NotALedger);
    }
    if number > 3 {
        return Err(OpenFault::NewerSchema);
    }
    Ok(number as u32)
}
