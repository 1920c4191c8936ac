//! All rows of a ledger in a newer version of the schema.

ghost use Rattle.std.specs.Prelude.{◌<◌, IfOk};
ghost use Rattle.std.specs.List.{AllZip};
ghost use Rattle.rows.specs.TypedRows.{lists_of};
ghost use Rattle.audit.specs.Sound.{AreSound};
ghost use Rattle.migrate.specs.Migrated.{AreMigrated, IsMigrated};
ghost use Rattle.migrate.specs.Older.{AreSoundOlder};

use audit::rows_in_version as tenant_rows_in_version;
use rows::{AllRows, TenantOfDigest};
use std::alloc::{AllocError, Global};

/// All rows of a ledger in a newer version of the schema, from those in a version without failed
/// ids: of each tenant the rows there of the same machine, in which no id has failed. The rows have
/// to be sound, as `audit::check` finds. It takes as much time and memory as that does.
pub fn rows_in_version(alloc: Global, rows: AllRows, to: u32) -> Result<AllRows, AllocError>
    requires { AreSoundOlder rows.version rows.tenants.items }
    ensures { IfOk result (AreMigrated to rows) }
{
    let AllRows {
        version,
        directory,
        tenants,
    } = rows;
    let tenants = tenants_in_version(alloc, version, to, tenants)?;
    Ok(AllRows {
        version: to,
        directory,
        tenants,
    })
}

fn tenants_in_version(
    alloc: Global,
    version: u32,
    to: u32,
    tenants: Vec<TenantOfDigest>,
) -> Result<Vec<TenantOfDigest>, AllocError>
    requires { AreSoundOlder version tenants.items }
    ensures { IfOk result (λ newer. AllZip (IsMigrated version to) tenants.items newer.items) }
{
    let mut newer = Vec::new(alloc);
    for tenant in tenants {
        let migrated = tenant_in_version(alloc, version, to, tenant)?;
        newer.push(migrated)?;
    }
    Ok(newer)
}

fn tenant_in_version(
    alloc: Global,
    version: u32,
    to: u32,
    tenant: TenantOfDigest,
) -> Result<TenantOfDigest, AllocError>
    requires older { version < 3 }
    requires sound { AreSound version (lists_of tenant.rows) }
    ensures { IfOk result (IsMigrated version to tenant) }
{
    let TenantOfDigest { digest, rows } = tenant;
    let rows = tenant_rows_in_version(alloc, version, to, rows)?;
    Ok(TenantOfDigest { digest, rows })
}
