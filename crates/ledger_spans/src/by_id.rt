//! A tenant's rows of a table, in order of id.

ghost use Rattle.std.specs.Prelude.{◌≡◌, IfOk, map, suc};
ghost use Rattle.sqlite.specs.State.{HasCleanDisk};
ghost use Rattle.keyed_trees.specs.Kept.{state};
ghost use Rattle.ledger_sql.specs.Calls.{LeavesListed, LeavesRead};
ghost use Rattle.ledger_sql.specs.Reading.{ReadsRows, account_cmp, balance_cmp, id_cmp, status_cmp};
ghost use Rattle.ledger_sql.specs.Reading.{transfer_cmp};
ghost use Rattle.ledger_sql.specs.Schema.{balance_schema, ledger_schema, list_schema};
ghost use Rattle.ledger_sql.specs.TableRows.{account_rows, balance_rows, failed_rows, rows_in};
ghost use Rattle.ledger_sql.specs.TableRows.{status_rows, transfer_rows};
ghost use Rattle.ledger_sql.specs.Values.{account_values, balance_values, id_values};
ghost use Rattle.ledger_sql.specs.Values.{status_values, transfer_values};
ghost use Rattle.ledger_spans.specs.Listing.{by_first};

use keyed_trees::{Range, Tables};
use ledger_layout::{
    ById, FailedCells, Identified, Kind, LedgerLayout, TenantRow, cause, write_tenant_key,
};
use ledger_sql::TableFault;
use records::Unavailable;
use rows::{AccountCells, BalanceCells, StatusCells, TransferCells};
use sqlite_trees::store::{Direction, Store};
use sqlite_value::row::Row;
use std::alloc::Global;

/// A tenant's accounts, in order of id.
pub fn list_accounts<S: Store>(
    alloc: Global,
    tables: &mut Tables<S, LedgerLayout>,
    tenant: i64,
) -> Result<Vec<AccountCells>, TableFault>
    ensures { LeavesListed list_schema (λ trees read. ReadsRows account_values account_cmp
        (account_rows tenant trees) read.items)
        (state ledger_schema S.Store tables.old) (state ledger_schema S.Store tables.new) result }
{
    let rows = list::<S, AccountCells>(alloc, tables, tenant)?;
    Ok(rows)
}

/// A tenant's transfers, in order of id.
pub fn list_transfers<S: Store>(
    alloc: Global,
    tables: &mut Tables<S, LedgerLayout>,
    tenant: i64,
) -> Result<Vec<TransferCells>, TableFault>
    ensures { LeavesListed list_schema (λ trees read. ReadsRows transfer_values transfer_cmp
        (transfer_rows tenant trees) read.items)
        (state ledger_schema S.Store tables.old) (state ledger_schema S.Store tables.new) result }
{
    let rows = list::<S, TransferCells>(alloc, tables, tenant)?;
    Ok(rows)
}

/// A tenant's balances, in order of account.
pub fn list_balances<S: Store>(
    alloc: Global,
    tables: &mut Tables<S, LedgerLayout>,
    tenant: i64,
) -> Result<Vec<BalanceCells>, TableFault>
    ensures { LeavesListed balance_schema (λ trees read. ReadsRows balance_values balance_cmp
        (balance_rows tenant trees) read.items)
        (state ledger_schema S.Store tables.old) (state ledger_schema S.Store tables.new) result }
{
    let rows = list::<S, BalanceCells>(alloc, tables, tenant)?;
    Ok(rows)
}

/// The states of a tenant's pending transfers, in order of id.
pub fn list_statuses<S: Store>(
    alloc: Global,
    tables: &mut Tables<S, LedgerLayout>,
    tenant: i64,
) -> Result<Vec<StatusCells>, TableFault>
    ensures { LeavesListed balance_schema (λ trees read. ReadsRows status_values status_cmp
        (status_rows tenant trees) read.items)
        (state ledger_schema S.Store tables.old) (state ledger_schema S.Store tables.new) result }
{
    let rows = list::<S, StatusCells>(alloc, tables, tenant)?;
    Ok(rows)
}

/// The ids of a tenant's failed transfers, in order.
pub fn list_failed<S: Store>(
    alloc: Global,
    tables: &mut Tables<S, LedgerLayout>,
    tenant: i64,
) -> Result<Vec<[u8; 16]>, TableFault>
    ensures { LeavesListed ledger_schema (λ trees read. ReadsRows id_values id_cmp
        (failed_rows tenant trees) read.items)
        (state ledger_schema S.Store tables.old) (state ledger_schema S.Store tables.new) result }
{
    let failed = list::<S, FailedCells>(alloc, tables, tenant)?;
    let ids = ids_of(alloc, failed.as_slice())?;
    Ok(ids)
}

/// A tenant's rows of one kind, in order of id.
fn list<S: Store, C: Identified>(
    alloc: Global,
    tables: &mut Tables<S, LedgerLayout>,
    tenant: i64,
) -> Result<Vec<C>, Unavailable>
    ensures read { HasCleanDisk (state ledger_schema S.Store tables.new) → IfOk result
        (λ read. ReadsRows C.values (by_first 1 C.values) (rows_in C.table (suc C.others) tenant
        (state ledger_schema S.Store tables.old).now.trees) read.items) }
    ensures reads { LeavesRead (state ledger_schema S.Store tables.old)
        (state ledger_schema S.Store tables.new) result }
{
    let rows = own_rows(alloc, tables, tenant)?;
    let read = cells_of(alloc, rows)?;
    Ok(read)
}

fn own_rows<S: Store, C: Identified>(
    alloc: Global,
    tables: &mut Tables<S, LedgerLayout>,
    tenant: i64,
) -> Result<Vec<(i64, TenantRow<C>)>, Unavailable>
    ensures read { HasCleanDisk (state ledger_schema S.Store tables.new) → IfOk result
        (λ read. ReadsRows (λ it. C.values it.1.cells) (by_first 1 (λ it. C.values it.1.cells))
        (rows_in C.table (suc C.others) tenant
        (state ledger_schema S.Store tables.old).now.trees) read.items) }
    ensures reads { LeavesRead (state ledger_schema S.Store tables.old)
        (state ledger_schema S.Store tables.new) result }
{
    let mut key = Row::new(alloc);
    if write_tenant_key(&mut key, tenant).is_err() {
        tables.rollback();
        return Err(Unavailable::Memory);
    }
    let range = Range {
        start: &key,
        stop: &key,
        direction: Direction::Forward,
    };
    match tables.all_in_range::<ById<C>>(&range) {
        Ok(read) => Ok(read),
        Err(error) => Err(cause(error)),
    }
}

/// The columns of these rows without their rowids and their tenant.
pub(crate) fn cells_of<C: Kind>(
    alloc: Global,
    rows: Vec<(i64, TenantRow<C>)>,
) -> Result<Vec<C>, Unavailable>
    ensures { IfOk result (λ read. read.items ≡ map (λ row. row.1.cells) rows.items) }
{
    let mut read = Vec::with_capacity(alloc, rows.len())?;
    for (_, row) in rows {
        let TenantRow { cells, .. } = row;
        read.push(cells)?;
    }
    Ok(read)
}

fn ids_of(alloc: Global, failed: &[FailedCells]) -> Result<Vec<[u8; 16]>, Unavailable>
    ensures { IfOk result (λ ids. ids.items ≡ map (λ row. row.id) failed.now) }
{
    let mut ids = Vec::new(alloc);
    for row in failed {
        ids.push(row.id)?;
    }
    Ok(ids)
}
