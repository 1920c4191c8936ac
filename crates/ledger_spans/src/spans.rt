//! A tenant's accounts and transfers in a span of time, at most a number of them, oldest or newest
//! first. Both ends of the span are inclusive, in nanoseconds.

ghost use Rattle.std.specs.Prelude.{◌≡◌, All, IfOk, map};
ghost use Rattle.keyed_trees.specs.Kept.{state};
ghost use Rattle.rows.specs.Cells.{account_cells, transfer_cells};
ghost use Rattle.rows.specs.Widths.{IsStorableAccount, IsStorableTransfer};
ghost use Rattle.ledger_sql.specs.Calls.{LeavesFound};
ghost use Rattle.ledger_sql.specs.Entries.{ReadsUpTo};
ghost use Rattle.ledger_sql.specs.Schema.{ledger_schema};
ghost use Rattle.ledger_sql.specs.Spans.{AscendAt, DescendAt, accounts_between, transfers_between};
ghost use Rattle.ledger_sql.specs.Values.{account_values, transfer_values};

use crate::timed::{newest, oldest};
use keyed_trees::Tables;
use ledger_layout::{LedgerLayout, TenantRow};
use records::{Account, Transfer, Unavailable};
use rows::{AccountCells, TransferCells};
use sqlite_trees::store::Store;
use std::alloc::Global;

/// A tenant's oldest accounts of a span of time, at most `most`, in order of time.
pub fn oldest_accounts<S: Store>(
    alloc: Global,
    tables: &mut Tables<S, LedgerLayout>,
    tenant: i64,
    first: i64,
    last: i64,
    most: u32,
) -> Result<Vec<Account>, Unavailable>
    ensures { LeavesFound (λ read. All IsStorableAccount read.items)
        (λ trees read. ReadsUpTo (λ a. account_values (account_cells a)) most
        (accounts_between tenant first last trees) (AscendAt 7) read.items)
        (state ledger_schema S.Store tables.old) (state ledger_schema S.Store tables.new) result }
{
    let rows = oldest::<S, AccountCells>(alloc, tables, tenant, first, last, most)?;
    accounts_of(alloc, rows.as_slice())
}

/// A tenant's newest accounts of a span of time, at most `most`, the newest first.
pub fn newest_accounts<S: Store>(
    alloc: Global,
    tables: &mut Tables<S, LedgerLayout>,
    tenant: i64,
    first: i64,
    last: i64,
    most: u32,
) -> Result<Vec<Account>, Unavailable>
    ensures { LeavesFound (λ read. All IsStorableAccount read.items)
        (λ trees read. ReadsUpTo (λ a. account_values (account_cells a)) most
        (accounts_between tenant first last trees) (DescendAt 7) read.items)
        (state ledger_schema S.Store tables.old) (state ledger_schema S.Store tables.new) result }
{
    let rows = newest::<S, AccountCells>(alloc, tables, tenant, first, last, most)?;
    accounts_of(alloc, rows.as_slice())
}

/// A tenant's oldest transfers of a span of time, at most `most`, in order of time.
pub fn oldest_transfers<S: Store>(
    alloc: Global,
    tables: &mut Tables<S, LedgerLayout>,
    tenant: i64,
    first: i64,
    last: i64,
    most: u32,
) -> Result<Vec<Transfer>, Unavailable>
    ensures { LeavesFound (λ read. All IsStorableTransfer read.items)
        (λ trees read. ReadsUpTo (λ t. transfer_values (transfer_cells t)) most
        (transfers_between tenant first last trees) (AscendAt 12) read.items)
        (state ledger_schema S.Store tables.old) (state ledger_schema S.Store tables.new) result }
{
    let rows = oldest::<S, TransferCells>(alloc, tables, tenant, first, last, most)?;
    transfers_of(alloc, rows.as_slice())
}

/// A tenant's newest transfers of a span of time, at most `most`, the newest first.
pub fn newest_transfers<S: Store>(
    alloc: Global,
    tables: &mut Tables<S, LedgerLayout>,
    tenant: i64,
    first: i64,
    last: i64,
    most: u32,
) -> Result<Vec<Transfer>, Unavailable>
    ensures { LeavesFound (λ read. All IsStorableTransfer read.items)
        (λ trees read. ReadsUpTo (λ t. transfer_values (transfer_cells t)) most
        (transfers_between tenant first last trees) (DescendAt 12) read.items)
        (state ledger_schema S.Store tables.old) (state ledger_schema S.Store tables.new) result }
{
    let rows = newest::<S, TransferCells>(alloc, tables, tenant, first, last, most)?;
    transfers_of(alloc, rows.as_slice())
}

/// The accounts of these rows. It fails where a number of a row fits no account.
fn accounts_of(
    alloc: Global,
    rows: &[(i64, TenantRow<AccountCells>)],
) -> Result<Vec<Account>, Unavailable>
    ensures cells { IfOk result (λ accounts.
        map account_cells accounts.items ≡ map (λ row. row.1.cells) rows.now) }
    ensures fits { IfOk result (λ accounts. All IsStorableAccount accounts.items) }
{
    let mut accounts = Vec::new(alloc);
    for row in rows {
        let Some(account) = row.1.cells.to_account() else {
            return Err(Unavailable::Size);
        };
        accounts.push(account)?;
    }
    Ok(accounts)
}

/// The transfers of these rows. It fails where a number of a row fits no transfer.
fn transfers_of(
    alloc: Global,
    rows: &[(i64, TenantRow<TransferCells>)],
) -> Result<Vec<Transfer>, Unavailable>
    ensures cells { IfOk result (λ transfers.
        map transfer_cells transfers.items ≡ map (λ row. row.1.cells) rows.now) }
    ensures fits { IfOk result (λ transfers. All IsStorableTransfer transfers.items) }
{
    let mut transfers = Vec::new(alloc);
    for row in rows {
        let Some(transfer) = row.1.cells.to_transfer() else {
            return Err(Unavailable::Size);
        };
        transfers.push(transfer)?;
    }
    Ok(transfers)
}
