//! Rows of a tenant that change inside its batch.

ghost use Rattle.std.specs.Prelude.{IfSome};
ghost use Rattle.rows.specs.Changes.{set_balances, set_both, set_state};
ghost use Rattle.rows.specs.Widths.{IsStorableStatus};
ghost use Rattle.ledger_sql.specs.Calls.{LeavesChanged, LeavesFound};
ghost use Rattle.ledger_tables.specs.Calls.{IfHonest};
ghost use Rattle.ledger_sql.specs.Effects.{IsInside};
ghost use Rattle.stored_tables.specs.Moves.{ChangesRows, IsThere, HasBoth, HasStatus, IsStatusOf};
ghost use Rattle.stored_tables.specs.Releasing.{HasStatusRow};

use crate::batch::TenantNumber;
use amount::columns_keep_order;
use ledger_tables::LedgerTables;
use records::{Balances, PendingState, Transfer, Unavailable};
use rows::{BalanceRow, StatusRow, cells_tell_rows, found_by_key};

/// Sets the balances of an account.
pub(crate) fn set_balances<T: LedgerTables>(
    tables: &mut T,
    tenant: TenantNumber,
    account: u128,
    balances: Balances,
) -> Result<(), Unavailable>
    requires { IfHonest IsInside (T.state tables.old) }
    ensures { LeavesChanged (ChangesRows tenant.0
        (λ rows. IsThere (λ row. row.account) account rows.balances)
        (λ rows. record rows { balances = set_balances account balances rows.balances }))
        (T.state tables.old) (T.state tables.new) result }
{
    columns_keep_order();
    found_by_key::<BalanceRow>();
    tables.set_balance(tenant.0, &BalanceRow { account, balances })
}

/// Sets the balances of a transfer's two accounts.
pub(crate) fn set_both<T: LedgerTables>(
    tables: &mut T,
    tenant: TenantNumber,
    transfer: &Transfer,
    debit: Balances,
    credit: Balances,
) -> Result<(), Unavailable>
    requires { IfHonest IsInside (T.state tables.old) }
    ensures { LeavesChanged (ChangesRows tenant.0 (λ rows. HasBoth transfer.now rows.balances)
        (λ rows. record rows { balances = set_both transfer.now debit credit rows.balances }))
        (T.state tables.old) (T.state tables.new) result }
{
    set_balances(tables, tenant, transfer.debit_account_id, debit)?;
    set_balances(tables, tenant, transfer.credit_account_id, credit)
}

/// What is told of the pending transfer with this id, if there is one.
pub(crate) fn status<T: LedgerTables>(
    tables: &mut T,
    tenant: TenantNumber,
    id: u128,
) -> Result<Option<StatusRow>, Unavailable>
    ensures { LeavesFound (λ found. IfSome found IsStorableStatus) (IsStatusOf tenant.0 id)
        (T.state tables.old) (T.state tables.new) result }
{
    columns_keep_order();
    cells_tell_rows();
    found_by_key::<StatusRow>();
    tables.find_status(tenant.0, id)
}

/// Sets what has become of a pending transfer whose status row was read.
pub(crate) fn set_state<T: LedgerTables>(
    tables: &mut T,
    tenant: TenantNumber,
    row: &StatusRow,
    to: PendingState,
) -> Result<(), Unavailable>
    requires inside { IfHonest IsInside (T.state tables.old) }
    requires told { IfHonest (HasStatusRow tenant.0 row.now) (T.state tables.old) }
    requires fits { IsStorableStatus row.now }
    ensures { LeavesChanged (ChangesRows tenant.0 (λ rows. HasStatus row.now.transfer rows.statuses)
        (λ rows. record rows { statuses = set_state row.now.transfer to rows.statuses }))
        (T.state tables.old) (T.state tables.new) result }
{
    columns_keep_order();
    found_by_key::<StatusRow>();
    tables.set_status(tenant.0, &StatusRow { state: to, ..*row })
}
