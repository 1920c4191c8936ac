//! All rows of a database, tenant by tenant, as the file has them.

ghost use Rattle.std.specs.Prelude.{◌≡◌, IfOk, IsTrue};
ghost use Rattle.std.specs.List.{AllZip};
ghost use Rattle.sqlite.specs.State.{HasCleanDisk};
ghost use Rattle.ledger_sql.specs.Frames.{Follows};
ghost use Rattle.stored_ledgers.specs.Calls.{LeavesSeen, LeavesToldAtRest};
ghost use Rattle.stored_ledgers.specs.Resting.{HoldsHere};
ghost use Rattle.records.specs.declared.unavailable.Unavailable.TheVariants.{Disk};
ghost use Rattle.stored_ledgers.specs.Looks.{Looks};
ghost use Rattle.openings.specs.Calls.{LeavesTablesRead};
ghost use Rattle.openings.specs.Whole.{CanBeRead, AreRowsOfDigest, AreAllRows, IsReadFor};
ghost use Rattle.openings.specs.Tables.{HasTables};

use crate::tables::read_tenant;
use ledger_tables::LedgerTables;
use records::Unavailable;
use rows::{AllRows, DirectoryRow, TenantOfDigest, TenantRows};
use std::alloc::Global;
use stored_ledgers::probe::judged;

/// All rows of a database that holds ledgers, tenant by tenant.
pub fn all_rows<T: LedgerTables>(
    alloc: Global,
    tables: &mut T,
    version: u32,
) -> Result<AllRows, Unavailable>
    requires { HoldsHere (T.state tables.old) }
    ensures { LeavesToldAtRest Disk (λ db rows. AreAllRows version db.trees rows)
        (T.state tables.old) (T.state tables.new) result }
{
    rows_in(alloc, tables, version)
}

/// All rows of a database that has the tables of this version, tenant by tenant.
pub fn rows_in<T: LedgerTables>(
    alloc: Global,
    tables: &mut T,
    version: u32,
) -> Result<AllRows, Unavailable>
    requires { CanBeRead version (T.state tables.old) }
    ensures version { IfOk result (λ rows. rows.version ≡ version) }
    ensures tells { LeavesToldAtRest Disk (λ db rows. AreAllRows version db.trees rows)
        (T.state tables.old) (T.state tables.new) result }
{
    let rows = read_all(alloc, tables, version);
    judged(tables, rows)
}

/// The rows of the tenant with this digest, if there is one.
pub fn rows_of<T: LedgerTables>(
    alloc: Global,
    tables: &mut T,
    version: u32,
    digest: &[u8; 32],
) -> Result<Option<TenantRows>, Unavailable>
    requires { HoldsHere (T.state tables.old) }
    ensures { LeavesToldAtRest Disk (λ db rows. AreRowsOfDigest version digest.now db.trees rows)
        (T.state tables.old) (T.state tables.new) result }
{
    let rows = try_rows_of(alloc, tables, version, digest);
    judged(tables, rows)
}

/// The same, where a failure may have shut the database unnoticed.
fn try_rows_of<T: LedgerTables>(
    alloc: Global,
    tables: &mut T,
    version: u32,
    digest: &[u8; 32],
) -> Result<Option<TenantRows>, Unavailable>
    requires { HoldsHere (T.state tables.old) }
    ensures { LeavesSeen (λ db rows. AreRowsOfDigest version digest.now db.trees rows)
        (T.state tables.old) (T.state tables.new) result }
{
    let Some(number) = tables.find_tenant(digest)? else {
        return Ok(None);
    };
    Ok(Some(read_tenant(alloc, tables, version, number)?))
}

/// All rows of a file of this version. A failure may have shut the database unnoticed.
pub fn read_all<T: LedgerTables>(
    alloc: Global,
    tables: &mut T,
    version: u32,
) -> Result<AllRows, Unavailable>
    ensures version { IfOk result (λ rows. rows.version ≡ version) }
    ensures reads { LeavesTablesRead (HasTables version) (AreAllRows version)
        (T.state tables.old) (T.state tables.new) result }
{
    let directory = tables.directory(alloc)?;
    let tenants = read_tenants(alloc, tables, version, &directory)?;
    Ok(AllRows {
        version,
        directory,
        tenants,
    })
}

/// The rows of the tenants in these rows of the directory, one after the other.
fn read_tenants<T: LedgerTables>(
    alloc: Global,
    tables: &mut T,
    version: u32,
    directory: &[DirectoryRow],
) -> Result<Vec<TenantOfDigest>, Unavailable>
    ensures whole { HasCleanDisk (T.state tables.new)
        → HasTables version (T.state tables.old).now.schema
        → IfOk result (λ tenants.
        AllZip (IsReadFor version (T.state tables.old).now.trees) directory.now
        tenants.items) }
    ensures looks { IsTrue (T.state tables.old).is_open
        → Looks (T.state tables.old) (T.state tables.new) result }
    ensures follows { Follows (T.state tables.old) (T.state tables.new) }
{
    let mut tenants = Vec::new(alloc);
    for row in directory {
        let rows = read_tenant(alloc, tables, version, row.number)?;
        tenants.push(TenantOfDigest {
            digest: row.digest,
            rows,
        })?;
    }
    Ok(tenants)
}
