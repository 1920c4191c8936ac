//! The rows of a store's tables, in words.

use super::commands::{Text, put_word, said, shown};
use records::Unavailable;
use rows::{
    AccountCells, AllRows, BalanceCells, DirectoryRow, HistoryCells, StatusCells, TenantOfDigest,
    TenantRows, TransferCells,
};
use std::alloc::Global;

fn number_of(blob: [u8; 16]) -> u128 {
    u128::from_be_bytes(blob)
}

/// A row's cells as numbers. Blobs are numbers too, the greatest byte first.
trait Cells {
    fn row(&self, alloc: Global) -> Text;
}

impl Cells for AccountCells {
    fn row(&self, alloc: Global) -> Text {
        let id = number_of(self.id);
        shown(
            alloc,
            &(id, self.ledger, self.code, self.flags, self.timestamp),
        )
    }
}

impl Cells for TransferCells {
    fn row(&self, alloc: Global) -> Text {
        let ids = [
            self.id,
            self.debit,
            self.credit,
            self.amount,
            self.pending_id,
        ];
        shown(
            alloc,
            &(
                ids.map(number_of),
                self.flags,
                self.timestamp,
                self.at_clock,
            ),
        )
    }
}

impl Cells for BalanceCells {
    fn row(&self, alloc: Global) -> Text {
        let cells = [self.account, self.dp, self.dd, self.cp, self.cc];
        shown(alloc, &cells.map(number_of))
    }
}

impl Cells for StatusCells {
    fn row(&self, alloc: Global) -> Text {
        shown(alloc, &(number_of(self.transfer), self.state, self.due))
    }
}

impl Cells for HistoryCells {
    fn row(&self, alloc: Global) -> Text {
        let cells = [self.account, self.dp, self.dd, self.cp, self.cc];
        shown(alloc, &(self.timestamp, cells.map(number_of)))
    }
}

impl Cells for [u8; 16] {
    fn row(&self, alloc: Global) -> Text {
        shown(alloc, &number_of(*self))
    }
}

impl Cells for i64 {
    fn row(&self, alloc: Global) -> Text {
        shown(alloc, self)
    }
}

fn rows_told<C: Cells>(alloc: Global, rows: &[C]) -> Text {
    let mut text = format!(in alloc; "{} rows:", rows.len())?;
    for row in rows {
        put_word(&mut text, row.row(alloc)?)?;
    }
    Ok(text)
}

/// The rows of a tenant in one of its tables.
pub fn table(alloc: Global, told: Result<Option<TenantRows>, Unavailable>, name: &str) -> Text {
    match told {
        Ok(Some(rows)) => named(alloc, &rows, name),
        Ok(None) => said(alloc, "no tenant"),
        Err(fault) => shown(alloc, &fault),
    }
}

/// The rows of the table of this name.
fn named(alloc: Global, rows: &TenantRows, name: &str) -> Text {
    match name {
        "account" => rows_told(alloc, &rows.accounts),
        "transfer" => rows_told(alloc, &rows.transfers),
        "balance" => rows_told(alloc, &rows.balances),
        "status" => rows_told(alloc, &rows.statuses),
        "history" => rows_told(alloc, &rows.history),
        "failed" => rows_told(alloc, &rows.failed),
        _ => rows_told(alloc, &rows.clocks),
    }
}

/// The version of the schema, each tenant's number, name and the first byte of its digest, and how
/// many transfers it has.
pub fn directory(alloc: Global, told: Result<AllRows, Unavailable>) -> Text {
    let all = match told {
        Ok(all) => all,
        Err(fault) => return shown(alloc, &fault),
    };
    let mut text = format!(in alloc; "version {}:", all.version)?;
    for (row, tenant) in all.directory.iter().zip(all.tenants.iter()) {
        put_word(&mut text, tenant_told(alloc, row, tenant)?)?;
    }
    Ok(text)
}

fn tenant_told(alloc: Global, row: &DirectoryRow, tenant: &TenantOfDigest) -> Text {
    let its = [row.digest[0], tenant.digest[0]];
    let transfers = tenant.rows.transfers.len();
    format!(in alloc; "{} {} {its:?} {transfers};", row.number, row.name)
}
