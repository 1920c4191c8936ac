//! The latest clock in a file.

ghost use Rattle.std.specs.Prelude.{◌≡◌};
ghost use Rattle.reply_marks.specs.Latest.{latest_clock, latest_in, number};

use rows::{AllRows, TenantOfDigest};

/// The latest clock of the tenants, and 0 where there is none.
pub fn latest_clock(rows: &AllRows) -> u64
    ensures { result ≡ latest_clock rows.now }
{
    let mut latest = 0;
    for tenant in &rows.tenants {
        latest = latest_with(latest, tenant);
    }
    latest
}

// The later one of this clock and a tenant's.
fn latest_with(clock: u64, tenant: &TenantOfDigest) -> u64
    ensures { result ≡ latest_in clock tenant.now.rows.clocks.items }
{
    let mut latest = clock;
    for clock in &tenant.rows.clocks {
        latest = latest.max(number(*clock));
    }
    latest
}

// A clock is no negative number.
fn number(clock: i64) -> u64
    ensures { result ≡ number clock }
{
    clock.max(0) as u64
}
