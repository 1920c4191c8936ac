//! What the ledger accepts of a tenant, and ids that failed for good.

ghost use Rattle.std.specs.Prelude.{◌≤◌, OnOk};
ghost use Rattle.std.specs.BTreeSet.{contains, IsSubset};
ghost use Rattle.records.specs.Accepted.{IsAccepted};
ghost use Rattle.records.specs.Machine.{with_failed};
ghost use Rattle.records.specs.Step.{max_clock};
ghost use Rattle.records.specs.Valid.{IsNextAccount, with_account, with_transfer};
ghost use Rattle.chain.specs.Tables.{Leaves, FailsNow, on_now};
ghost use Rattle.stored_tables.specs.Covers.{Covers};
ghost use Rattle.stored_tables.specs.Meaning.{batch_meaning, MayCall};
ghost use Rattle.stored_tables.specs.Moves.{HasBoundedTimes};

use crate::batch::TenantNumber;
use crate::entries::{write_account, write_transfer};
use crate::failing::or_give_up;
use crate::laws::held_machines;
use engine::endings_are_told;
use ledger_tables::LedgerTables;
use records::{Accepted, Account, Unavailable};
use rows::{
    account_rows, changes_keep_same_rows, failed_rows, keys_are_distinct, rows_fit, single_rows,
    transfer_rows,
};
use std::collections::BTreeSet;

/// Keeps an account.
pub(crate) fn accept_account<T: LedgerTables>(
    tables: &mut T,
    tenant: TenantNumber,
    account: &Account,
) -> Result<(), Unavailable>
    requires may { MayCall (batch_meaning T.state tenant.0)
        (λ s. IsNextAccount s.now account.now) tables.old }
    requires bounded { account.now.timestamp ≤ max_clock }
    ensures { Leaves (batch_meaning T.state tenant.0) tables.old tables.new result
        (on_now (λ m. with_account m account.now)) }
{
    held_machines();
    account_rows();
    let done = write_account(tables, tenant, account);
    or_give_up(tables, done)
}

/// Keeps a transfer, with the balances of its accounts and the state of the pending transfer that
/// it ends. Where it is a pending one with a due time, the set has both first.
pub(crate) fn accept_transfer<T: LedgerTables>(
    tables: &mut T,
    due_times: &mut BTreeSet<(u64, u128)>,
    tenant: TenantNumber,
    accepted: &Accepted,
) -> Result<(), Unavailable>
    requires may { MayCall (batch_meaning T.state tenant.0)
        (λ s. IsAccepted s.now accepted.now) tables.old }
    requires times { HasBoundedTimes accepted.now.stored }
    ensures leaves { Leaves (batch_meaning T.state tenant.0) tables.old tables.new result
        (on_now (λ m. with_transfer m accepted.now.stored)) }
    ensures covers { (batch_meaning T.state tenant.0).is_live tables.new → OnOk result
        (Covers (contains ⟦<(u64, u128) as Ord>⟧.cmp due_times.old)
        ((batch_meaning T.state tenant.0).state tables.old).now →
        Covers (contains ⟦<(u64, u128) as Ord>⟧.cmp due_times.new)
        ((batch_meaning T.state tenant.0).state tables.new).now) }
    ensures grows { IsSubset ⟦<(u64, u128) as Ord>⟧.cmp due_times.old due_times.new }
{
    held_machines();
    single_rows();
    transfer_rows();
    rows_fit();
    keys_are_distinct();
    endings_are_told();
    let done = write_transfer(tables, due_times, tenant, accepted);
    or_give_up(tables, done)
}

/// Keeps the id of a transfer that failed for good.
pub(crate) fn record_failed<T: LedgerTables>(
    tables: &mut T,
    tenant: TenantNumber,
    id: u128,
) -> Result<(), Unavailable>
    requires { MayCall (batch_meaning T.state tenant.0) (λ s. FailsNow s.now id) tables.old }
    ensures { Leaves (batch_meaning T.state tenant.0) tables.old tables.new result
        (on_now (λ m. with_failed m id)) }
{
    held_machines();
    failed_rows();
    changes_keep_same_rows();
    let done = tables.add_failed(tenant.0, id);
    or_give_up(tables, done)
}
