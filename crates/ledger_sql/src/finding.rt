//! Single rows, found by their whole key.

ghost use Rattle.std.specs.Prelude.{◌≡◌, filter, pos, [], ◌∷◌, string_bytes};
ghost use Rattle.std.specs.List.{list_any};
ghost use Rattle.sqlite_value.specs.declared.value.Value.TheVariants.{Int};
ghost use Rattle.sqlite_value.specs.Order.{column};
ghost use Rattle.amount.specs.Column.{column_of};
ghost use Rattle.rows.specs.Cells.{account_cells, transfer_cells, balance_cells, status_cells};
ghost use Rattle.rows.specs.Widths.{IsStorableAccount, IsStorableTransfer, IsStorableBalance, IsStorableStatus};
ghost use Rattle.ledger_sql.specs.Calls.{AnyWidth, FindsRow, Learns, OverLedger};
ghost use Rattle.ledger_sql.specs.TableRows.{clock_rows, is_int, numbers_with_digest, directory_rows, with_name, account_rows, transfer_rows, balance_rows, status_rows, failed_rows, has_id, with_id};
ghost use Rattle.ledger_sql.specs.Values.{clock_values, directory_values, account_values, transfer_values, balance_values, status_values};

use crate::query::first_row;
use crate::read::{read_found, was_found};
use records::{Account, Transfer, Unavailable};
use rows::{BalanceRow, DirectoryRow, StatusRow};
use sqlite::{Alter, Connection, params};

/// A tenant's account with this id.
pub fn find_account<S: Alter>(
    conn: &mut Connection<S>,
    tenant: i64,
    id: u128,
) -> Result<Option<Account>, Unavailable>
    ensures { FindsRow IsStorableAccount (λ row. account_values (account_cells row))
        (λ trees. with_id (column_of id) (account_rows tenant trees))
        S.Store conn.old conn.new result }
{
    let key = id.to_be_bytes();
    read_found(first_row(
        conn,
        "SELECT id, user_data_128, user_data_64, user_data_32, ledger, code, flags, timestamp \
            FROM account WHERE tenant = ?1 AND id = ?2",
        params![tenant, key.as_slice()],
    ))
}

/// A tenant's transfer with this id.
pub fn find_transfer<S: Alter>(
    conn: &mut Connection<S>,
    tenant: i64,
    id: u128,
) -> Result<Option<Transfer>, Unavailable>
    ensures { FindsRow IsStorableTransfer (λ row. transfer_values (transfer_cells row))
        (λ trees. with_id (column_of id) (transfer_rows tenant trees))
        S.Store conn.old conn.new result }
{
    let key = id.to_be_bytes();
    read_found(first_row(
        conn,
        "SELECT id, debit, credit, amount, pending_id, user_data_128, user_data_64, \
            user_data_32, timeout, ledger, code, flags, timestamp, at_clock FROM transfer WHERE \
            tenant = ?1 AND id = ?2",
        params![tenant, key.as_slice()],
    ))
}

/// The balances of a tenant's account with this id, at the tenant's clock.
pub fn find_balance<S: Alter>(
    conn: &mut Connection<S>,
    tenant: i64,
    account: u128,
) -> Result<Option<BalanceRow>, Unavailable>
    ensures { FindsRow IsStorableBalance (λ row. balance_values (balance_cells row))
        (λ trees. with_id (column_of account) (balance_rows tenant trees))
        S.Store conn.old conn.new result }
{
    let key = account.to_be_bytes();
    read_found(first_row(
        conn,
        "SELECT account, dp, dd, cp, cc FROM balance WHERE tenant = ?1 AND account = ?2",
        params![tenant, key.as_slice()],
    ))
}

/// What has become of a tenant's pending transfer with this id, at the tenant's clock.
pub fn find_status<S: Alter>(
    conn: &mut Connection<S>,
    tenant: i64,
    transfer: u128,
) -> Result<Option<StatusRow>, Unavailable>
    ensures { FindsRow IsStorableStatus (λ row. status_values (status_cells row))
        (λ trees. with_id (column_of transfer) (status_rows tenant trees))
        S.Store conn.old conn.new result }
{
    let key = transfer.to_be_bytes();
    read_found(first_row(
        conn,
        "SELECT transfer, state, due FROM status WHERE tenant = ?1 AND transfer = ?2",
        params![tenant, key.as_slice()],
    ))
}

/// Whether a tenant's transfer with this id has failed.
pub fn has_failed<S: Alter>(
    conn: &mut Connection<S>,
    tenant: i64,
    id: u128,
) -> Result<bool, Unavailable>
    ensures { Learns OverLedger
        (λ trees failed. failed ≡ list_any (has_id (column_of id)) (failed_rows tenant trees))
        S.Store conn.old conn.new result }
{
    let key = id.to_be_bytes();
    was_found(first_row(
        conn,
        "SELECT id FROM failed WHERE tenant = ?1 AND id = ?2",
        params![tenant, key.as_slice()],
    ))
}

/// A tenant's clock, in nanoseconds.
pub fn find_clock<S: Alter>(
    conn: &mut Connection<S>,
    tenant: i64,
) -> Result<Option<u64>, Unavailable>
    ensures { FindsRow AnyWidth (λ clock. clock_values (pos clock))
        (λ trees. clock_rows tenant trees) S.Store conn.old conn.new result }
{
    read_found(first_row(
        conn,
        "SELECT clock FROM clock WHERE tenant = ?1",
        params![tenant],
    ))
}

/// The number of the tenant whose key has this digest.
pub fn find_tenant<S: Alter>(
    conn: &mut Connection<S>,
    digest: &[u8],
) -> Result<Option<i64>, Unavailable>
    ensures { FindsRow AnyWidth (λ number. Int number ∷ [])
        (λ trees. numbers_with_digest digest.now trees) S.Store conn.old conn.new result }
{
    read_found(first_row(
        conn,
        "SELECT no FROM tenant WHERE digest = ?1",
        params![digest],
    ))
}

/// The directory's row with this name.
pub fn find_tenant_by_name<S: Alter>(
    conn: &mut Connection<S>,
    name: &str,
) -> Result<Option<DirectoryRow>, Unavailable>
    ensures { FindsRow AnyWidth
        (λ row. directory_values row.number (string_bytes row.name) row.digest)
        (λ trees. with_name name.now (directory_rows trees))
        S.Store conn.old conn.new result }
{
    read_found(first_row(
        conn,
        "SELECT no, name, digest FROM tenant WHERE name = ?1",
        params![name],
    ))
}

/// The directory's row with this number.
pub fn find_tenant_by_number<S: Alter>(
    conn: &mut Connection<S>,
    number: i64,
) -> Result<Option<DirectoryRow>, Unavailable>
    ensures { FindsRow AnyWidth
        (λ row. directory_values row.number (string_bytes row.name) row.digest)
        (λ trees. filter (λ row. is_int number (column row 0)) (directory_rows trees))
        S.Store conn.old conn.new result }
{
    read_found(first_row(
        conn,
        "SELECT no, name, digest FROM tenant WHERE no = ?1",
        params![number],
    ))
}
