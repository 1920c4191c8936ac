//! The rows of new accounts and transfers.

ghost use Rattle.std.specs.Prelude.{◌≡◌, ◌<◌, ◌≤◌, ◌^◌, List, [], ◌∷◌, Some, IfSome, OnOk};
ghost use Rattle.std.specs.BTreeSet.{contains, IsSubset};
ghost use Rattle.std.specs.Option.{option_to_list, ForSome};
ghost use Rattle.records.specs.Step.{max_clock};
ghost use Rattle.engine.specs.EndingLaw.{ended_id};
ghost use Rattle.rows.specs.Changes.{with_opened, with_accepted, ended, set_state};
ghost use Rattle.rows.specs.Changes.{new_statuses, new_history};
ghost use Rattle.ledger_sql.specs.Calls.{LeavesChanged};
ghost use Rattle.ledger_tables.specs.Calls.{IfHonest};
ghost use Rattle.ledger_sql.specs.Effects.{IsInside};
ghost use Rattle.stored_tables.specs.Covers.{HasDue};
ghost use Rattle.stored_tables.specs.Moves.{Any, CanWrite, ChangesRows, CanAccept, CanEnd};
ghost use Rattle.stored_tables.specs.Moves.{HasBoundedTimes};

use crate::batch::TenantNumber;
use crate::changing::{set_both, set_state, status};
use crate::due_times::remember;
use engine::due;
use ledger_tables::LedgerTables;
use records::{Accepted, Account, Balances, Ending, PendingState, Transfer, Unavailable};
use rows::{BalanceRow, HistoryRow, StatusRow};
use std::collections::BTreeSet;

/// Writes the rows of a new account.
pub(crate) fn write_account<T: LedgerTables>(
    tables: &mut T,
    tenant: TenantNumber,
    account: &Account,
) -> Result<(), Unavailable>
    requires inside { IfHonest IsInside (T.state tables.old) }
    requires bounded { account.now.timestamp ≤ max_clock }
    ensures { LeavesChanged (ChangesRows tenant.0 Any (with_opened account.now))
        (T.state tables.old) (T.state tables.new) result }
{
    tables.add_account(tenant.0, account)?;
    let balance = BalanceRow {
        account: account.id,
        balances: Balances::ZERO,
    };
    tables.add_balance(tenant.0, &balance)
}

/// Writes the rows of a new transfer: its own, the balances of its two accounts now and as history,
/// and the state of the pending transfer that it ends or its own. Where it is a pending one with a
/// due time, the set has both first.
pub(crate) fn write_transfer<T: LedgerTables>(
    tables: &mut T,
    due_times: &mut BTreeSet<(u64, u128)>,
    tenant: TenantNumber,
    accepted: &Accepted,
) -> Result<(), Unavailable>
    requires inside { IfHonest IsInside (T.state tables.old) }
    requires times { HasBoundedTimes accepted.now.stored }
    ensures changes { LeavesChanged
        (ChangesRows tenant.0 (CanAccept accepted.now) (with_accepted accepted.now))
        (T.state tables.old) (T.state tables.new) result }
    ensures kept { OnOk result
        (HasDue (contains ⟦<(u64, u128) as Ord>⟧.cmp due_times.new) accepted.now.stored) }
    ensures grows { IsSubset ⟦<(u64, u128) as Ord>⟧.cmp due_times.old due_times.new }
{
    let stored = &accepted.stored;
    remember(due_times, stored)?;
    tables.add_transfer(tenant.0, stored)?;
    set_both(
        tables,
        tenant,
        stored,
        accepted.debit_after,
        accepted.credit_after,
    )?;
    end_pending(tables, tenant, &accepted.ends)?;
    if let Some(status) = new_status(stored) {
        tables.add_status(tenant.0, &status)?;
    }
    let history = new_history(accepted);
    tables.add_history(tenant.0, &history.0, &history.1)
}

/// Sets the state of the pending transfer that is ended, if one is. That it has no status is told
/// as a disk that failed.
fn end_pending<T: LedgerTables>(
    tables: &mut T,
    tenant: TenantNumber,
    ends: &Option<Ending>,
) -> Result<(), Unavailable>
    requires { IfHonest CanWrite (T.state tables.old) }
    ensures { LeavesChanged (ChangesRows tenant.0 (λ rows. CanEnd ends.now rows.statuses)
        (λ rows. record rows { statuses = ended ends.now rows.statuses }))
        (T.state tables.old) (T.state tables.new) result }
{
    let Some(ending) = ends else {
        return Ok(());
    };
    let end = end_of(*ending);
    let row = status(tables, tenant, end.0)?.ok_or(Unavailable::Disk)?;
    set_state(tables, tenant, &row, end.1)
}

/// The pending transfer that is ended, and what becomes of it.
fn end_of(ending: Ending) -> (u128, PendingState)
    ensures id { result.0 ≡ ended_id ending }
    ensures state { (rows : List StatusRow) →
        ended (Some ending) rows ≡ set_state result.0 result.1 rows }
{
    match ending {
        Ending::Posted(id) => (id, PendingState::Posted),
        Ending::Voided(id) => (id, PendingState::Voided),
    }
}

/// The status of a new transfer, if it is a pending one.
fn new_status(stored: &Transfer) -> Option<StatusRow>
    requires { stored.now.timestamp ≤ max_clock }
    ensures row { option_to_list result ≡ new_statuses stored.now }
    ensures fits { IfSome result (λ row. ForSome row.due (λ due. due < 2 ^ 63)) }
{
    if !stored.flags.is_pending() {
        return None;
    }
    stored.widths();
    Some(StatusRow {
        transfer: stored.id,
        state: PendingState::Open,
        due: due(stored),
    })
}

/// The balances of a new transfer's two accounts, as history.
fn new_history(accepted: &Accepted) -> (HistoryRow, HistoryRow)
    ensures { result.0 ∷ result.1 ∷ [] ≡ new_history accepted.now }
{
    let stored = &accepted.stored;
    let debit = HistoryRow {
        account: stored.debit_account_id,
        timestamp: stored.timestamp,
        balances: accepted.debit_after,
    };
    let credit = HistoryRow {
        account: stored.credit_account_id,
        timestamp: stored.timestamp,
        balances: accepted.credit_after,
    };
    (debit, credit)
}
