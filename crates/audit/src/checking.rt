ghost use Rattle.std.specs.Prelude.{◌≡◌, All, Any, IfOk, IfErr, IfNone, OnOk};
ghost use Rattle.std.specs.Option.{option_map};
ghost use Rattle.rows.specs.TypedRows.{lists_of};
ghost use Rattle.audit.specs.declared.damage.Damage.{Damage};
ghost use Rattle.audit.specs.Damage.{IfDamaged, IsDamage, IsFirstDamage, TellsFirst, earlier, with_digest};
ghost use Rattle.audit.specs.Sound.{AreSound};

use crate::tenant::{Found, find};
use crate::{AuditFault, Damage, sound_rows_pass};
use rows::AllRows;
use std::alloc::{AllocError, Global};
use std::cmp::Ordering;

/// Ok only where each tenant's rows are those of a valid machine, in the version that the rows
/// have; else the first damage, which only rows of no valid machine have. The lists are those of a
/// file, in order of key. It takes time by the number of rows only as a sort does, and about one
/// tenant's rows again as memory.
pub fn check(alloc: Global, rows: &AllRows) -> Result<(), AuditFault>
    ensures sound { OnOk result
        (All (λ tenant. AreSound rows.now.version (lists_of tenant.rows)) rows.now.tenants.items) }
    ensures undamaged { OnOk result
        ((damage : Damage) →
        IsDamage rows.now.version rows.now.tenants.items damage → ⊥) }
    ensures damaged { IfErr result
        (λ fault. IfDamaged fault (IsFirstDamage rows.now.version rows.now.tenants.items)) }
    ensures unsound { IfErr result
        (λ fault. IfDamaged fault
        (λ _. Any (λ tenant. AreSound rows.now.version (lists_of tenant.rows) → ⊥)
        rows.now.tenants.items)) }
{
    sound_rows_pass();
    match first_damage(alloc, rows)? {
        Some(damage) => Err(AuditFault::Damaged(damage)),
        None => Ok(()),
    }
}

fn first_damage(alloc: Global, rows: &AllRows) -> Result<Option<Damage>, AllocError>
    ensures first { IfOk result (TellsFirst rows.now.version rows.now.tenants.items) }
    ensures sound { IfOk result
        (λ first. IfNone first
        (All (λ tenant. AreSound rows.now.version (lists_of tenant.rows))
        rows.now.tenants.items)) }
{
    let mut first = None;
    for tenant in &rows.tenants {
        let found = find(alloc, rows.version, &tenant.rows)?;
        first = earlier(first, with_digest(tenant.digest, found));
    }
    Ok(first)
}

fn with_digest(digest: [u8; 32], found: Option<Found>) -> Option<Damage>
    ensures { result ≡ option_map (with_digest digest) found }
{
    found.map(|found| Damage {
        kind: found.kind,
        digest,
        place: found.place,
    })
}

// The earlier of two, where there is one.
fn earlier(first: Option<Damage>, second: Option<Damage>) -> Option<Damage>
    ensures { result ≡ earlier first second }
{
    match (first, second) {
        (Some(first), Some(second)) => match second.order(&first) {
            Ordering::Less => Some(second),
            _ => Some(first),
        },
        (None, second) => second,
        (first, None) => first,
    }
}
