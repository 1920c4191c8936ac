//! The clock of a tenant, and what is due at it.

ghost use Rattle.std.specs.Prelude.{◌≡◌, ◌≤◌};
ghost use Rattle.std.specs.BTreeSet.{contains};
ghost use Rattle.records.specs.Due.{has_come};
ghost use Rattle.records.specs.Step.{max_clock};
ghost use Rattle.rows.specs.Settling.{is_due_row};
ghost use Rattle.ledger_sql.specs.Calls.{LeavesChanged};
ghost use Rattle.ledger_tables.specs.Calls.{IfHonest};
ghost use Rattle.stored_tables.specs.Kept.{kept_in};
ghost use Rattle.stored_tables.specs.Moves.{CanWrite};
ghost use Rattle.stored_tables.specs.Releasing.{ReleasesOne, MovesClock};

use crate::batch::TenantNumber;
use crate::changing::status;
use crate::expiring::expire;
use crate::flushing::flush;
use crate::kept::{Kept, MOST};
use ledger_tables::LedgerTables;
use records::{PendingState, Unavailable};
use rows::{StatusRow, clock_rows, keys_are_distinct, rows_fit};
use std::collections::BTreeSet;

/// Sets the clock, in nanoseconds, and releases what is due at it: of the set the transfers alone
/// are looked at that fell due since a past moment, at which the tenant's clock was already. The
/// balances of an account are kept back and written once, unless there are more accounts than have
/// room.
pub(crate) fn move_clock<T: LedgerTables>(
    tables: &mut T,
    due: &BTreeSet<(u64, u128)>,
    tenant: TenantNumber,
    past: u64,
    clock: u64,
) -> Result<(), Unavailable>
    requires writing { IfHonest CanWrite (T.state tables.old) }
    requires bounded { clock ≤ max_clock }
    ensures { LeavesChanged
        (MovesClock tenant.0 past clock (contains ⟦<(u64, u128) as Ord>⟧.cmp due.now))
        (T.state tables.old) (T.state tables.new) result }
{
    clock_rows();
    rows_fit();
    keys_are_distinct();
    let from = past.min(clock);
    let mut kept = Kept::new();
    for entry in due.range((from, u128::MAX)..=(clock, u128::MAX)) {
        release_next(tables, &mut kept, tenant, clock, entry.1)?;
    }
    flush(tables, &mut kept, tenant)?;
    tables.set_clock(tenant.0, clock)
}

/// Releases a transfer that is open and due at the clock, once there is room for its balances. A
/// set of due times may have others, which stay.
fn release_next<T: LedgerTables>(
    tables: &mut T,
    kept: &mut Kept,
    tenant: TenantNumber,
    clock: u64,
    id: u128,
) -> Result<(), Unavailable>
    requires { IfHonest CanWrite (T.state tables.old) }
    ensures { LeavesChanged
        (ReleasesOne tenant.0 clock id (kept_in kept.old.items) (kept_in kept.new.items))
        (T.state tables.old) (T.state tables.new) result }
{
    clock_rows();
    if kept.len() + 2 > MOST {
        flush(tables, kept, tenant)?;
    }
    let Some(row) = status(tables, tenant, id)? else {
        return Ok(());
    };
    if is_due(&row, clock) {
        expire(tables, kept, tenant, &row)
    } else {
        Ok(())
    }
}

/// Whether a transfer is open and due at the clock.
fn is_due(row: &StatusRow, clock: u64) -> bool
    ensures { result ≡ is_due_row clock row.now }
{
    row.state == PendingState::Open && has_come(row.due, clock)
}

/// Whether a due time has come.
fn has_come(due: Option<u64>, clock: u64) -> bool
    ensures { result ≡ has_come due clock }
{
    match due {
        Some(due) => due <= clock,
        None => false,
    }
}
