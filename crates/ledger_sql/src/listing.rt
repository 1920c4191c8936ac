//! Tables read whole, whatever version the file has: those that say what the file holds, and one
//! tenant's rows of each table that tenants share.

ghost use Rattle.std.specs.Prelude.{map, string_bytes, IsPermutation};
ghost use Rattle.ledger_sql.specs.Calls.{Lists};
ghost use Rattle.ledger_sql.specs.Reading.{clock_cmp, account_cmp, transfer_cmp, balance_cmp, status_cmp, history_cmp, id_cmp, directory_cmp, ReadsRows};
ghost use Rattle.ledger_sql.specs.Schema.{after_schema, after_tenant, list_schema, balance_schema, ledger_schema};
ghost use Rattle.ledger_sql.specs.TableRows.{version_rows, directory_rows, clock_rows, account_rows, transfer_rows, balance_rows, status_rows, history_rows, failed_rows};
ghost use Rattle.ledger_sql.specs.Values.{version_values, clock_values, directory_values, account_values, transfer_values, balance_values, status_values, history_values, id_values};

use crate::query::all_rows;
use crate::table_fault::TableFault;
use rows::{AccountCells, BalanceCells, DirectoryRow, HistoryCells, StatusCells, TransferCells};
use sqlite::{Alter, Connection, params};
use std::alloc::Global;

/// The versions of the schema that a file names: one, where it is a ledger.
pub fn list_versions<S: Alter>(
    alloc: Global,
    conn: &mut Connection<S>,
) -> Result<Vec<i64>, TableFault>
    ensures { Lists after_schema (λ trees read. IsPermutation (version_rows trees)
        (map version_values read.items)) S.Store conn.old conn.new result }
{
    all_rows(alloc, conn, "SELECT version FROM schema", &[])
}

/// The directory, in order of the tenants' numbers.
pub fn directory<S: Alter>(
    alloc: Global,
    conn: &mut Connection<S>,
) -> Result<Vec<DirectoryRow>, TableFault>
    ensures { Lists after_tenant (λ trees read. ReadsRows
        (λ row. directory_values row.number (string_bytes row.name) row.digest) directory_cmp
        (directory_rows trees) read.items) S.Store conn.old conn.new result }
{
    all_rows(
        alloc,
        conn,
        "SELECT no, name, digest FROM tenant ORDER BY no",
        &[],
    )
}

/// A tenant's clock, as the file has it, in nanoseconds: one, where the file is sound.
pub fn list_clocks<S: Alter>(
    alloc: Global,
    conn: &mut Connection<S>,
    tenant: i64,
) -> Result<Vec<i64>, TableFault>
    ensures { Lists list_schema (λ trees read. ReadsRows clock_values clock_cmp
        (clock_rows tenant trees) read.items) S.Store conn.old conn.new result }
{
    all_rows(
        alloc,
        conn,
        "SELECT clock FROM clock WHERE tenant = ?1",
        params![tenant],
    )
}

/// A tenant's accounts, in order of id.
pub fn list_accounts<S: Alter>(
    alloc: Global,
    conn: &mut Connection<S>,
    tenant: i64,
) -> Result<Vec<AccountCells>, TableFault>
    ensures { Lists list_schema (λ trees read. ReadsRows account_values account_cmp
        (account_rows tenant trees) read.items) S.Store conn.old conn.new result }
{
    all_rows(
        alloc,
        conn,
        "SELECT id, user_data_128, user_data_64, user_data_32, ledger, code, flags, timestamp \
            FROM account WHERE tenant = ?1 ORDER BY id",
        params![tenant],
    )
}

/// A tenant's transfers, in order of id.
pub fn list_transfers<S: Alter>(
    alloc: Global,
    conn: &mut Connection<S>,
    tenant: i64,
) -> Result<Vec<TransferCells>, TableFault>
    ensures { Lists list_schema (λ trees read. ReadsRows transfer_values transfer_cmp
        (transfer_rows tenant trees) read.items) S.Store conn.old conn.new result }
{
    all_rows(
        alloc,
        conn,
        "SELECT id, debit, credit, amount, pending_id, user_data_128, user_data_64, \
            user_data_32, timeout, ledger, code, flags, timestamp, at_clock FROM transfer \
            WHERE tenant = ?1 ORDER BY id",
        params![tenant],
    )
}

/// A tenant's balances, in order of account.
pub fn list_balances<S: Alter>(
    alloc: Global,
    conn: &mut Connection<S>,
    tenant: i64,
) -> Result<Vec<BalanceCells>, TableFault>
    ensures { Lists balance_schema (λ trees read. ReadsRows balance_values balance_cmp
        (balance_rows tenant trees) read.items) S.Store conn.old conn.new result }
{
    all_rows(
        alloc,
        conn,
        "SELECT account, dp, dd, cp, cc FROM balance WHERE tenant = ?1 ORDER BY account",
        params![tenant],
    )
}

/// What has become of a tenant's pending transfers, in order of id.
pub fn list_statuses<S: Alter>(
    alloc: Global,
    conn: &mut Connection<S>,
    tenant: i64,
) -> Result<Vec<StatusCells>, TableFault>
    ensures { Lists balance_schema (λ trees read. ReadsRows status_values status_cmp
        (status_rows tenant trees) read.items) S.Store conn.old conn.new result }
{
    all_rows(
        alloc,
        conn,
        "SELECT transfer, state, due FROM status WHERE tenant = ?1 ORDER BY transfer",
        params![tenant],
    )
}

/// A tenant's history, in order of account and timestamp.
pub fn list_history<S: Alter>(
    alloc: Global,
    conn: &mut Connection<S>,
    tenant: i64,
) -> Result<Vec<HistoryCells>, TableFault>
    ensures { Lists balance_schema (λ trees read. ReadsRows history_values history_cmp
        (history_rows tenant trees) read.items) S.Store conn.old conn.new result }
{
    all_rows(
        alloc,
        conn,
        "SELECT account, timestamp, dp, dd, cp, cc FROM history WHERE tenant = ?1 \
            ORDER BY account, timestamp",
        params![tenant],
    )
}

/// The ids of a tenant's failed transfers, in order.
pub fn list_failed<S: Alter>(
    alloc: Global,
    conn: &mut Connection<S>,
    tenant: i64,
) -> Result<Vec<[u8; 16]>, TableFault>
    ensures { Lists ledger_schema (λ trees read. ReadsRows id_values id_cmp
        (failed_rows tenant trees) read.items) S.Store conn.old conn.new result }
{
    all_rows(
        alloc,
        conn,
        "SELECT id FROM failed WHERE tenant = ?1 ORDER BY id",
        params![tenant],
    )
}
