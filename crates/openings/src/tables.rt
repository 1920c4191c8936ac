//! A tenant's rows of each table.

ghost use Rattle.ledger_sql.specs.Effects.{StartsAs};
ghost use Rattle.ledger_sql.specs.Schema.{list_schema};
ghost use Rattle.rows.specs.TypedRows.{lists_of};
ghost use Rattle.openings.specs.Calls.{LeavesTablesRead};
ghost use Rattle.openings.specs.Tables.{AreTenantRows, HasTables};

use ledger_tables::LedgerTables;
use records::Unavailable;
use rows::TenantRows;
use std::alloc::Global;

/// A tenant's rows of the tables of a file of this version. No row of another tenant is read.
pub fn read_tenant<T: LedgerTables>(
    alloc: Global,
    tables: &mut T,
    version: u32,
    tenant: i64,
) -> Result<TenantRows, Unavailable>
    ensures { LeavesTablesRead (HasTables version)
        (λ trees rows. AreTenantRows version tenant trees (lists_of rows))
        (T.state tables.old) (T.state tables.new) result }
{
    let entries = read_entries(alloc, tables, tenant)?;
    if version < 2 {
        return Ok(entries);
    }
    let balances = tables.list_balances(alloc, tenant)?;
    let statuses = tables.list_statuses(alloc, tenant)?;
    let history = tables.list_history(alloc, tenant)?;
    let derived = TenantRows {
        balances,
        statuses,
        history,
        ..entries
    };
    if version < 3 {
        return Ok(derived);
    }
    let failed = tables.list_failed(alloc, tenant)?;
    Ok(TenantRows { failed, ..derived })
}

/// Those of version 1.
fn read_entries<T: LedgerTables>(
    alloc: Global,
    tables: &mut T,
    tenant: i64,
) -> Result<TenantRows, Unavailable>
    ensures { LeavesTablesRead (StartsAs list_schema.tables)
        (λ trees rows. AreTenantRows 1 tenant trees (lists_of rows))
        (T.state tables.old) (T.state tables.new) result }
{
    let clocks = tables.list_clocks(alloc, tenant)?;
    let accounts = tables.list_accounts(alloc, tenant)?;
    let transfers = tables.list_transfers(alloc, tenant)?;
    Ok(TenantRows {
        clocks,
        accounts,
        transfers,
        balances: Vec::new(alloc),
        statuses: Vec::new(alloc),
        history: Vec::new(alloc),
        failed: Vec::new(alloc),
    })
}
