//! A pending transfer of a tenant expires.

ghost use Rattle.std.specs.Prelude.{◌≡◌, ℕ, ◌+◌, ◌≤◌, IfOk};
ghost use Rattle.arrayvec.specs.ArrayVec.{array_vec_len};
ghost use Rattle.records.specs.declared.side.Side.TheVariants.{Debit, Credit};
ghost use Rattle.engine.specs.After.{balances_released};
ghost use Rattle.rows.specs.Widths.{IsStorableStatus};
ghost use Rattle.ledger_sql.specs.Calls.{OverLedger, LeavesChanged, LeavesLearnt};
ghost use Rattle.ledger_tables.specs.Calls.{IfHonest};
ghost use Rattle.ledger_sql.specs.Effects.{IsInside};
ghost use Rattle.stored_tables.specs.Idle.{HasOpenStore};
ghost use Rattle.stored_tables.specs.Kept.{kept_in};
ghost use Rattle.stored_tables.specs.Releasing.{Expires, AreKeptBalancesOf, HasStatusRow};
ghost use Rattle.stored_tables.specs.Releasing.{with_expiry};

use crate::batch::TenantNumber;
use crate::changing::set_state;
use crate::expiry::Expiry;
use crate::kept::{Kept, KeptRow, keep, kept_balances};
use crate::reading;
use amount::{Amount, columns_keep_order};
use engine::release;
use ledger_tables::LedgerTables;
use records::{Balances, PendingState, Transfer, Unavailable};
use rows::{StatusRow, found_by_key};

/// Lets the pending transfer of this status row expire, inside a transaction, and keeps back what
/// it leaves of the balances. That it or what belongs to it is missing is told as a disk that
/// failed.
pub(crate) fn expire<T: LedgerTables>(
    tables: &mut T,
    kept: &mut Kept,
    tenant: TenantNumber,
    row: &StatusRow,
) -> Result<(), Unavailable>
    requires inside { IfHonest IsInside (T.state tables.old) }
    requires told { IfHonest (HasStatusRow tenant.0 row.now) (T.state tables.old) }
    requires fits { IsStorableStatus row.now }
    requires room { array_vec_len kept.old + 2 ≤ 128 }
    ensures { LeavesChanged
        (Expires tenant.0 row.now.transfer (kept_in kept.old.items) (kept_in kept.new.items))
        (T.state tables.old) (T.state tables.new) result }
{
    columns_keep_order();
    found_by_key::<Transfer>();
    let transfer = tables
        .find_transfer(tenant.0, row.transfer)?
        .ok_or(Unavailable::Disk)?;
    let debit = balances_of(tables, kept, tenant, transfer.debit_account_id)?;
    let credit = balances_of(tables, kept, tenant, transfer.credit_account_id)?;
    let left = released(debit, credit, transfer.amount)?;
    let expiry = Expiry {
        transfer,
        debit: left.0,
        credit: left.1,
    };
    keep_both(kept, &expiry);
    set_state(tables, tenant, row, PendingState::Expired)
}

/// The balances of the account with this id: those that are kept, or else those that are stored.
fn balances_of<T: LedgerTables>(
    tables: &mut T,
    kept: &Kept,
    tenant: TenantNumber,
    account: u128,
) -> Result<Balances, Unavailable>
    requires { IfHonest HasOpenStore (T.state tables.old) }
    ensures { LeavesLearnt OverLedger (AreKeptBalancesOf tenant.0 (kept_in kept.now.items) account)
        (T.state tables.old) (T.state tables.new) result }
{
    match kept_balances(kept, account) {
        Some(balances) => Ok(balances),
        None => reading::balances(tables, tenant, account),
    }
}

/// The balances of a transfer's two accounts without its amount, which they hold. That they do not
/// is told as a disk that failed.
fn released(
    debit: Balances,
    credit: Balances,
    amount: Amount,
) -> Result<(Balances, Balances), Unavailable>
    ensures { IfOk result (λ left. (left.0 ≡ balances_released Debit debit amount)
        × (left.1 ≡ balances_released Credit credit amount)) }
{
    if amount > debit.debits.pending || amount > credit.credits.pending {
        return Err(Unavailable::Disk);
    }
    Ok(release(debit, credit, amount))
}

/// Keeps what the expiry of a transfer leaves of the balances of its two accounts.
fn keep_both(kept: &mut Kept, expiry: &Expiry)
    requires { array_vec_len kept.old + 2 ≤ 128 }
    ensures { (other : ℕ) → kept_in kept.new.items other
        ≡ with_expiry expiry.now (kept_in kept.old.items) other }
{
    keep(
        kept,
        KeptRow {
            account: expiry.transfer.debit_account_id,
            balances: expiry.debit,
        },
    );
    keep(
        kept,
        KeptRow {
            account: expiry.transfer.credit_account_id,
            balances: expiry.credit,
        },
    );
}
