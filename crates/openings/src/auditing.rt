//! What looks at all rows of a file before they are served.

ghost use Rattle.std.specs.Prelude.{All, IfErr, OnOk};
ghost use Rattle.rows.specs.TypedRows.{lists_of};
ghost use Rattle.audit.specs.Damage.{IfDamaged, IsFirstDamage};
ghost use Rattle.audit.specs.Sound.{AreSound};

use audit::{AuditFault, check};
use rows::AllRows;
use std::alloc::Global;

/// A test of all rows of a file.
pub trait Audit {
    ghost use Rattle.std.specs.Prelude.{All, IfErr, OnOk};
    ghost use Rattle.rows.specs.TypedRows.{lists_of};
    ghost use Rattle.audit.specs.Damage.{IfDamaged, IsFirstDamage};
    ghost use Rattle.audit.specs.Sound.{AreSound};

    /// Ok only where each tenant's rows are those of a valid machine; else the first damage.
    fn audit(&self, alloc: Global, rows: &AllRows) -> Result<(), AuditFault>
        ensures sound { OnOk result
            (All (λ tenant. AreSound rows.now.version (lists_of tenant.rows))
            rows.now.tenants.items) }
        ensures damaged { IfErr result
            (λ fault. IfDamaged fault
            (IsFirstDamage rows.now.version rows.now.tenants.items)) };
}

/// Each row of every tenant is held against what its entries make of it.
#[derive(Clone, Copy, Debug)]
pub struct FullAudit;

impl Audit for FullAudit {
    fn audit(&self, alloc: Global, rows: &AllRows) -> Result<(), AuditFault> {
        check(alloc, rows)
    }
}
