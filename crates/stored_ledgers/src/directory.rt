//! Which tenants a database has.

ghost use Rattle.std.specs.Prelude.{◌≡◌, is_some, option_map, All, IsPermutation, IsSorted, IfSome};
ghost use Rattle.records.specs.declared.unavailable.Unavailable.TheVariants.{Disk};
ghost use Rattle.sqlite.specs.State.{HasCleanDisk};
ghost use Rattle.stored_ledgers.specs.Calls.{LeavesSeen, LeavesToldAtRest};
ghost use Rattle.stored_ledgers.specs.Directory.{tenants_in, digest_in, first_digest, with_number};
ghost use Rattle.stored_ledgers.specs.Listing.{AreListed, AreThose, IsThat, IsTenantOf, IsMadeOf, by_name};
ghost use Rattle.stored_ledgers.specs.Resting.{HoldsHere};

use crate::probe::judged;
use ledger_tables::LedgerTables;
use records::Unavailable;
use rows::DirectoryRow;
use std::alloc::Global;
use tenants::TenantName;

/// A tenant, as it is listed.
#[derive(Clone, Copy, Debug, PartialEq, Eq)]
pub struct ListedTenant {
    pub name: TenantName,
    /// The digest of its key.
    pub digest: [u8; 32],
    /// In nanoseconds.
    pub clock: u64,
}

/// Whether a tenant has this digest.
pub fn knows<T: LedgerTables>(tables: &mut T, digest: &[u8; 32]) -> Result<bool, Unavailable>
    requires { HoldsHere (T.state tables.old) }
    ensures { LeavesToldAtRest Disk (λ db known. known ≡ is_some (tenants_in db.trees digest.now))
        (T.state tables.old) (T.state tables.new) result }
{
    let number = tables.find_tenant(digest);
    Ok(judged(tables, number)?.is_some())
}

/// The digest of the tenant with this name.
pub fn digest_of<T: LedgerTables>(
    tables: &mut T,
    name: &TenantName,
) -> Result<Option<[u8; 32]>, Unavailable>
    requires { HoldsHere (T.state tables.old) }
    ensures { LeavesToldAtRest Disk (λ db digest. digest ≡ digest_in name.now db.trees)
        (T.state tables.old) (T.state tables.new) result }
{
    let row = tables.find_tenant_by_name(name.as_str());
    Ok(digest_in(judged(tables, row)?))
}

/// The digest of the tenant with this number.
pub(crate) fn digest_numbered<T: LedgerTables>(
    tables: &mut T,
    number: i64,
) -> Result<Option<[u8; 32]>, Unavailable>
    requires { HoldsHere (T.state tables.old) }
    ensures { LeavesToldAtRest Disk
        (λ db digest. digest ≡ first_digest (with_number number db.trees))
        (T.state tables.old) (T.state tables.new) result }
{
    let row = tables.find_tenant_by_number(number);
    Ok(digest_in(judged(tables, row)?))
}

/// The digest in a row of the directory, if there is one.
fn digest_in(row: Option<DirectoryRow>) -> Option<[u8; 32]>
    ensures { result ≡ option_map (λ row. row.digest) row }
{
    Some(row?.digest)
}

/// All tenants, by name. Of the tables only the directory and the clocks are read. A name in the
/// directory that no tenant may have is answered `Size`: an opening lets no such file through.
pub fn tenants<T: LedgerTables>(
    alloc: Global,
    tables: &mut T,
) -> Result<Vec<ListedTenant>, Unavailable>
    requires { HoldsHere (T.state tables.old) }
    ensures { LeavesToldAtRest Disk (λ db tenants. AreListed db.trees tenants.items)
        (T.state tables.old) (T.state tables.new) result }
{
    let tenants = try_tenants(alloc, tables);
    judged(tables, tenants)
}

/// The same, where a failure may have shut the database unnoticed.
fn try_tenants<T: LedgerTables>(
    alloc: Global,
    tables: &mut T,
) -> Result<Vec<ListedTenant>, Unavailable>
    requires { HoldsHere (T.state tables.old) }
    ensures { LeavesSeen (λ db tenants. AreListed db.trees tenants.items)
        (T.state tables.old) (T.state tables.new) result }
{
    let rows = tables.directory(alloc)?;
    let mut tenants = with_clocks(alloc, tables, rows.as_slice())?;
    sort_by_name(&mut tenants);
    Ok(tenants)
}

/// The tenants of these rows, each with its clock.
fn with_clocks<T: LedgerTables>(
    alloc: Global,
    tables: &mut T,
    rows: &[DirectoryRow],
) -> Result<Vec<ListedTenant>, Unavailable>
    requires here { HoldsHere (T.state tables.old) }
    requires found { HasCleanDisk (T.state tables.old)
        → All (IsTenantOf (T.state tables.old).now.trees) rows.now }
    ensures { LeavesSeen (λ db tenants. AreThose db.trees rows.now tenants.items)
        (T.state tables.old) (T.state tables.new) result }
{
    let mut tenants = Vec::new(alloc);
    for row in rows {
        tenants.push(with_clock(tables, row)?)?;
    }
    Ok(tenants)
}

/// The tenant of this row, with its clock.
fn with_clock<T: LedgerTables>(
    tables: &mut T,
    row: &DirectoryRow,
) -> Result<ListedTenant, Unavailable>
    requires here { HoldsHere (T.state tables.old) }
    requires found { HasCleanDisk (T.state tables.old)
        → IsTenantOf (T.state tables.old).now.trees row.now }
    ensures { LeavesSeen (λ db tenant. IsThat db.trees row.now tenant)
        (T.state tables.old) (T.state tables.new) result }
{
    let clock = tables.find_clock(row.number)?;
    listed(row, clock).ok_or(Unavailable::Size)
}

/// The tenant of this row, if it has this clock and its name is one.
fn listed(row: &DirectoryRow, clock: Option<u64>) -> Option<ListedTenant>
    ensures { IfSome result (IsMadeOf row.now clock) }
{
    Some(ListedTenant {
        name: TenantName::read(row.name.as_str())?,
        digest: row.digest,
        clock: clock?,
    })
}

fn sort_by_name(tenants: &mut Vec<ListedTenant>)
    ensures same { IsPermutation tenants.old.items tenants.new.items }
    ensures sorted { IsSorted by_name tenants.new.items }
{
    tenants.sort_unstable_by(|a, b| a.name.as_str().cmp(b.name.as_str()));
}
