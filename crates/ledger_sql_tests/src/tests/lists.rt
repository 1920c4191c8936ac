//! What is read whole: the version, the directory, and a tenant's rows of a table.

use super::acts::Table;
use super::sample::account;
use super::unclaimed::Unclaimed;
use ledger_sql::{TableFault, listing};
use rows::{AccountCells, BalanceCells, DirectoryRow, HistoryCells, StatusCells, TransferCells};
use sqlite::Connection;
use std::alloc::Global;

/// The last byte of a row's key.
trait Keyed {
    fn last_byte(&self) -> u8;
}

impl Keyed for i64 {
    fn last_byte(&self) -> u8 {
        self.to_be_bytes()[7]
    }
}

impl Keyed for DirectoryRow {
    fn last_byte(&self) -> u8 {
        self.digest[31]
    }
}

impl Keyed for AccountCells {
    fn last_byte(&self) -> u8 {
        self.id[15]
    }
}

impl Keyed for TransferCells {
    fn last_byte(&self) -> u8 {
        self.id[15]
    }
}

impl Keyed for BalanceCells {
    fn last_byte(&self) -> u8 {
        self.account[15]
    }
}

impl Keyed for StatusCells {
    fn last_byte(&self) -> u8 {
        self.transfer[15]
    }
}

impl Keyed for HistoryCells {
    fn last_byte(&self) -> u8 {
        self.account[15]
    }
}

impl Keyed for [u8; 16] {
    fn last_byte(&self) -> u8 {
        self[15]
    }
}

/// Whether the rows have keys that end so, in this order.
fn have_keys<T: Keyed + Drop>(
    rows: Result<Vec<T>, TableFault>,
    keys: &[u8],
) -> Result<bool, TableFault> {
    let rows = rows?;
    for (row, key) in rows.iter().zip(keys) {
        if row.last_byte() != *key {
            return Ok(false);
        }
    }
    Ok(rows.len() == keys.len())
}

pub fn lists<S: Unclaimed>(
    alloc: Global,
    conn: &mut Connection<S>,
    table: &Table,
    keys: &[u8],
) -> Result<bool, TableFault> {
    match *table {
        Table::Versions => have_keys(listing::list_versions(alloc, conn), keys),
        Table::Directory => have_keys(listing::directory(alloc, conn), keys),
        Table::Clocks(tenant) => have_keys(listing::list_clocks(alloc, conn, tenant), keys),
        Table::Accounts(tenant) => have_keys(listing::list_accounts(alloc, conn, tenant), keys),
        Table::Transfers(tenant) => have_keys(listing::list_transfers(alloc, conn, tenant), keys),
        Table::Balances(tenant) => have_keys(listing::list_balances(alloc, conn, tenant), keys),
        Table::Statuses(tenant) => have_keys(listing::list_statuses(alloc, conn, tenant), keys),
        Table::Histories(tenant) => have_keys(listing::list_history(alloc, conn, tenant), keys),
        Table::FailedIds(tenant) => have_keys(listing::list_failed(alloc, conn, tenant), keys),
    }
}

/// Whether the third account of tenant 1 that is read is account 3, cell by cell.
pub fn lists_cells<S: Unclaimed>(
    alloc: Global,
    conn: &mut Connection<S>,
) -> Result<bool, TableFault> {
    let third = AccountCells::from_account(&account(3, 3, 10));
    Ok(listing::list_accounts(alloc, conn, 1)?.get(2) == Some(&third))
}
