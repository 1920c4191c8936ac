//! What an opening looks at before a ledger is served.

ghost use Rattle.std.specs.Prelude.{◌↔◌, IfOk, IsTrue};
ghost use Rattle.ledger_sql.specs.Effects.{IsLedger};
ghost use Rattle.openings.specs.Calls.{Examines};
ghost use Rattle.openings.specs.Opened.{CanServeOrdered, HasNames};
ghost use Rattle.openings.specs.Told.{IsCurrent, IsSoundLedger, Warrants};
ghost use Rattle.openings.specs.Whole.{AreAllRows};

use crate::auditing::Audit;
use crate::due_sets::due_sets;
use crate::opening::OpenFault;
use crate::standing::standing_refusal;
use crate::versions::{CURRENT_VERSION, find_version};
use crate::whole_rows::read_all;
use rows::{AllRows, DirectoryRow, rows_fit};
use sqlite::{Alter, Connection};
use std::alloc::Global;
use stored_ledgers::batches::DueSets;
use stored_tables::held_machines;
use tenants::TenantName;

/// Looks at all that a file of the current version holds, and gives the due times of its tenants.
/// It only reads.
pub fn examine<S: Alter, A: Audit>(
    alloc: Global,
    conn: &mut Connection<S>,
    audit: &A,
) -> Result<DueSets, OpenFault>
    ensures { Examines (λ sets db. CanServeOrdered sets db × IsSoundLedger db) Warrants
        S.Store conn.old conn.new result }
{
    rows_fit();
    held_machines();
    find_current(alloc, conn)?;
    let rows = read_ledger(alloc, conn)?;
    audit.audit(alloc, &rows)?;
    Ok(due_sets(alloc, &rows)?)
}

/// Refuses each version of the schema but the current one.
fn find_current<S: Alter>(alloc: Global, conn: &mut Connection<S>) -> Result<(), OpenFault>
    ensures { Examines (λ done. IsCurrent) Warrants S.Store conn.old conn.new result }
{
    let version = find_version(alloc, conn)?;
    if version < CURRENT_VERSION {
        return Err(OpenFault::OldSchema);
    }
    Ok(())
}

/// Reads all rows of a file of the current version.
fn read_ledger<S: Alter>(alloc: Global, conn: &mut Connection<S>) -> Result<AllRows, OpenFault>
    ensures names { IfOk result (λ rows. HasNames rows.directory.items) }
    ensures examines { Examines
        (λ rows db. IsLedger db.schema × AreAllRows CURRENT_VERSION db.trees rows)
        (λ fault db. IsCurrent db → Warrants fault db) S.Store conn.old conn.new result }
{
    if let Some(fault) = standing_refusal(conn.schema()) {
        return Err(fault);
    }
    let rows = read_all(alloc, conn, CURRENT_VERSION)?;
    if !has_names(&rows.directory) {
        return Err(OpenFault::NotALedger);
    }
    Ok(rows)
}

/// Whether each tenant has a name that a tenant may have.
pub fn has_names(directory: &[DirectoryRow]) -> bool
    ensures { IsTrue result ↔ HasNames directory.now }
{
    directory
        .iter()
        .all(|row| TenantName::read(row.name.as_str()).is_some())
}
