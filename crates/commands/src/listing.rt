//! Tenants as they are listed.
ghost use Rattle.std.specs.Prelude.{◌≡◌, IfOk, map};
ghost use Rattle.serde_json.specs.Written.{compact_text};
ghost use Rattle.control.specs.Listing.{rows_data};
ghost use Rattle.commands.specs.Listing.{row_of};

use control::{TenantRow, tenants_body};
use std::alloc::{AllocError, Global};
use store::ListedTenant;

fn row_of(tenant: &ListedTenant) -> TenantRow
    ensures { result ≡ row_of tenant.now }
{
    TenantRow {
        name: tenant.name,
        digest: tenant.digest,
        clock: tenant.clock,
    }
}

/// The body that lists tenants, in the order in which they stand.
pub(crate) fn listed(alloc: Global, tenants: &[ListedTenant]) -> Result<Vec<u8>, AllocError>
    ensures { IfOk result (λ body.
        body.items ≡ compact_text (rows_data (map row_of tenants.now))) }
{
    let mut rows = Vec::new(alloc);
    for tenant in tenants {
        rows.push(row_of(tenant))?;
    }
    tenants_body(alloc, rows.as_slice())
}
