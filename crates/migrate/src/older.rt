//! What an opening looks at in a ledger of an older version.

ghost use Rattle.std.specs.Prelude.{◌≡◌, ◌<◌, IsTrue};
ghost use Rattle.openings.specs.Calls.{Examines};
ghost use Rattle.migrate.specs.Naming.{names_other};
ghost use Rattle.migrate.specs.Older.{AuditsOlder, IsSoundOlder, RefusesUnless};
ghost use Rattle.migrate.specs.Told.{TellsOlder};
ghost use Rattle.migrate.specs.Upgrading.{older_schema};

use crate::naming::{names_no_balances, names_no_lists};
use ledger_shape::{is_balances, is_lists};
use openings::auditing::Audit;
use openings::opened::has_names;
use openings::opening::OpenFault;
use openings::whole_rows::read_all;
use rows::AllRows;
use sqlite::{Alter, Connection};
use sqlite_schema::schema::Schema;
use std::alloc::Global;

/// Looks at all that a file of an older version holds. It only reads.
pub(crate) fn examine_older<S: Alter, A: Audit>(
    alloc: Global,
    conn: &mut Connection<S>,
    version: u32,
    audit: &A,
) -> Result<(), OpenFault>
    requires { version < 3 }
    ensures { Examines (λ done. IsSoundOlder version) (TellsOlder version)
        S.Store conn.old conn.new result }
{
    if let Some(fault) = older_refusal(version, conn.schema()) {
        return Err(fault);
    }
    let rows = read_all(alloc, conn, version)?;
    audit_older(alloc, &rows, audit)
}

/// Whether each tenant of an older ledger has a name and sound rows.
fn audit_older<A: Audit>(alloc: Global, rows: &AllRows, audit: &A) -> Result<(), OpenFault>
    ensures { AuditsOlder rows.now result }
{
    if !has_names(&rows.directory) {
        return Err(OpenFault::NotALedger);
    }
    audit.audit(alloc, rows)?;
    Ok(())
}

/// Why a file of an older version cannot be migrated: by name a table of that version is missing,
/// or one that only newer versions have is there; or the tables are made otherwise; or there are
/// others than those, behind which no more of a ledger's can be made.
fn older_refusal(version: u32, schema: &Schema) -> Option<OpenFault>
    requires { version < 3 }
    ensures { RefusesUnless (schema.now ≡ older_schema version)
        (names_other (older_schema version) schema.now) result }
{
    if version == 1 {
        return refusal_unless(is_lists(schema), names_no_lists(schema));
    }
    refusal_unless(is_balances(schema), names_no_balances(schema))
}

fn refusal_unless(is_it: bool, names_other: bool) -> Option<OpenFault>
    ensures { RefusesUnless (IsTrue is_it) names_other result }
{
    match (names_other, is_it) {
        (true, _) => Some(OpenFault::NotALedger),
        (false, false) => Some(OpenFault::Unreadable),
        (false, true) => None,
    }
}
