//! Balances that were kept back are written.

ghost use Rattle.std.specs.Prelude.{◌≡◌, [], OnOk};
ghost use Rattle.ledger_sql.specs.Calls.{LeavesChanged};
ghost use Rattle.ledger_tables.specs.Calls.{IfHonest};
ghost use Rattle.stored_tables.specs.Kept.{kept_in, Flushes};
ghost use Rattle.stored_tables.specs.Moves.{CanWrite};

use crate::batch::TenantNumber;
use crate::changing::set_balances;
use crate::kept::Kept;
use ledger_tables::LedgerTables;
use records::Unavailable;

/// Writes all that is kept. The tenant's rows with it stay what they were.
pub(crate) fn flush<T: LedgerTables>(
    tables: &mut T,
    kept: &mut Kept,
    tenant: TenantNumber,
) -> Result<(), Unavailable>
    requires { IfHonest CanWrite (T.state tables.old) }
    ensures changes { LeavesChanged
        (Flushes tenant.0 (kept_in kept.old.items) (kept_in kept.new.items))
        (T.state tables.old) (T.state tables.new) result }
    ensures empty { OnOk result (kept.new.items ≡ []) }
{
    while let Some(row) = kept.pop() {
        set_balances(tables, tenant, row.account, row.balances)?;
    }
    Ok(())
}
