ghost use Rattle.std.specs.Prelude.{IfOk};
ghost use Rattle.sqlite.specs.State.{HasCleanDisk};
ghost use Rattle.keyed_trees.specs.Kept.{state};
ghost use Rattle.ledger_sql.specs.Calls.{LeavesListed, LeavesRead};
ghost use Rattle.ledger_sql.specs.Reading.{ReadsRows, history_cmp};
ghost use Rattle.ledger_sql.specs.Schema.{balance_schema, ledger_schema};
ghost use Rattle.ledger_sql.specs.TableRows.{history_rows};
ghost use Rattle.ledger_sql.specs.Values.{history_values};
ghost use Rattle.ledger_spans.specs.Listing.{by_first};

use crate::by_id::cells_of;
use keyed_trees::{Range, Tables};
use ledger_layout::{ByEntry, LedgerLayout, TenantRow, cause, write_tenant_key};
use ledger_sql::TableFault;
use records::Unavailable;
use rows::HistoryCells;
use sqlite_trees::store::{Direction, Store};
use sqlite_value::row::Row;
use std::alloc::Global;

/// A tenant's history, in order of account and timestamp.
pub fn list_history<S: Store>(
    alloc: Global,
    tables: &mut Tables<S, LedgerLayout>,
    tenant: i64,
) -> Result<Vec<HistoryCells>, TableFault>
    ensures { LeavesListed balance_schema (λ trees read. ReadsRows history_values history_cmp
        (history_rows tenant trees) read.items)
        (state ledger_schema S.Store tables.old) (state ledger_schema S.Store tables.new) result }
{
    let rows = own_history(alloc, tables, tenant)?;
    let read = cells_of(alloc, rows)?;
    Ok(read)
}

fn own_history<S: Store>(
    alloc: Global,
    tables: &mut Tables<S, LedgerLayout>,
    tenant: i64,
) -> Result<Vec<(i64, TenantRow<HistoryCells>)>, Unavailable>
    ensures read { HasCleanDisk (state ledger_schema S.Store tables.new) → IfOk result
        (λ read. ReadsRows (λ it. history_values it.1.cells)
        (by_first 2 (λ it. history_values it.1.cells))
        (history_rows tenant (state ledger_schema S.Store tables.old).now.trees) read.items) }
    ensures reads { LeavesRead (state ledger_schema S.Store tables.old)
        (state ledger_schema S.Store tables.new) result }
{
    let mut key = Row::new(alloc);
    if write_tenant_key(&mut key, tenant).is_err() {
        tables.rollback();
        return Err(Unavailable::Memory);
    }
    let range = Range {
        start: &key,
        stop: &key,
        direction: Direction::Forward,
    };
    match tables.all_in_range::<ByEntry>(&range) {
        Ok(read) => Ok(read),
        Err(error) => Err(cause(error)),
    }
}
