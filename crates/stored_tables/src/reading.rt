//! What a tenant has, found by a whole key in its batch.

ghost use Rattle.std.specs.Prelude.{◌≡◌};
ghost use Rattle.records.specs.Facts.{account_in};
ghost use Rattle.ledger_sql.specs.Calls.{OverLedger, LeavesLearnt};
ghost use Rattle.stored_tables.specs.Idle.{LearnsOf};
ghost use Rattle.stored_tables.specs.Releasing.{AreBalancesOf};

use crate::batch::TenantNumber;
use crate::laws::point_reads;
use amount::columns_keep_order;
use ledger_tables::LedgerTables;
use records::{AccountWithBalances, Balances, Unavailable};
use rows::{BalanceRow, cells_tell_rows, found_by_key, keys_are_distinct, rows_fit};

/// The clock, in nanoseconds.
pub(crate) fn clock<T: LedgerTables>(
    tables: &mut T,
    tenant: TenantNumber,
) -> Result<u64, Unavailable>
    ensures { LearnsOf tenant.0 (λ m found. found ≡ m.clock)
        (T.state tables.old) (T.state tables.new) result }
{
    point_reads();
    tables.find_clock(tenant.0)?.ok_or(Unavailable::Disk)
}

/// The account with this id, with its balances at the clock.
pub(crate) fn account<T: LedgerTables>(
    tables: &mut T,
    tenant: TenantNumber,
    id: u128,
) -> Result<Option<AccountWithBalances>, Unavailable>
    ensures { LearnsOf tenant.0 (λ m found. found ≡ account_in m id)
        (T.state tables.old) (T.state tables.new) result }
{
    point_reads();
    rows_fit();
    keys_are_distinct();
    let Some(account) = tables.find_account(tenant.0, id)? else {
        return Ok(None);
    };
    let balances = balances(tables, tenant, id)?;
    Ok(Some(AccountWithBalances { account, balances }))
}

/// The stored balances of the account with this id. That it has none is told as a disk that
/// failed.
pub(crate) fn balances<T: LedgerTables>(
    tables: &mut T,
    tenant: TenantNumber,
    account: u128,
) -> Result<Balances, Unavailable>
    ensures { LeavesLearnt OverLedger (AreBalancesOf tenant.0 account)
        (T.state tables.old) (T.state tables.new) result }
{
    columns_keep_order();
    cells_tell_rows();
    found_by_key::<BalanceRow>();
    match tables.find_balance(tenant.0, account)? {
        Some(row) => Ok(row.balances),
        None => Err(Unavailable::Disk),
    }
}
