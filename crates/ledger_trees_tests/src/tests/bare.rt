//! The tables of a ledger over trees, without the trait of a ledger's tables, and rows for them.

use super::doubted::Store;
use super::places::empty_ledger;
use super::unclaimed::{store_claims_nothing, tables_claim_nothing};
use keyed_trees::{Record, Tables};
use ledger_layout::{LedgerLayout, TenantRow, VersionRow};
use rows::{AccountCells, TransferCells};
use sqlite_trees::error::StoreError;
use std::alloc::Global;
use std::test::Fail;

pub type Bare = Tables<Store, LedgerLayout>;

/// An empty ledger, in a transaction.
pub fn bare_ledger(alloc: Global) -> Result<Bare, Fail> {
    let store = empty_ledger(alloc)?.into_store();
    store_claims_nothing(&store);
    let Ok(mut tables) = Tables::over(alloc, store) else {
        return Err(Fail::from(StoreError::Broken));
    };
    tables.begin()?;
    Ok(tables)
}

/// Adds a row after all others of its table.
pub fn add<R: Record<LedgerLayout>>(tables: &mut Bare, content: &R) -> Result<(), StoreError>
    requires { R.is_storable content.now }
{
    tables_claim_nothing(tables);
    tables.add(content)
}

/// Adds a row at a rowid that no row has.
pub fn add_at<R: Record<LedgerLayout>>(
    tables: &mut Bare,
    id: i64,
    content: &R,
) -> Result<(), StoreError>
    requires { R.is_storable content.now }
{
    tables_claim_nothing(tables);
    tables.add_at(id, content)
}

/// Sets the version that the file names.
pub fn put_version(tables: &mut Bare, version: i64) -> Result<(), StoreError> {
    tables_claim_nothing(tables);
    tables.put(1, &VersionRow { version })
}

/// The column of a small id.
pub fn id(low: u8) -> [u8; 16] {
    let mut column = [0; 16];
    column[15] = low;
    column
}

pub fn account(tenant: i64, low: u8, timestamp: i64) -> TenantRow<AccountCells> {
    TenantRow {
        tenant,
        cells: AccountCells {
            id: id(low),
            user_data_128: id(0),
            user_data_64: [0; 8],
            user_data_32: 0,
            ledger: 978,
            code: 1,
            flags: 0,
            timestamp,
        },
    }
}

pub fn transfer(tenant: i64, low: u8, timestamp: i64) -> TenantRow<TransferCells> {
    TenantRow {
        tenant,
        cells: TransferCells {
            id: id(low),
            debit: id(1),
            credit: id(2),
            amount: id(9),
            pending_id: id(0),
            user_data_128: id(0),
            user_data_64: [0; 8],
            user_data_32: 0,
            timeout: 0,
            ledger: 978,
            code: 1,
            flags: 0,
            timestamp,
            at_clock: timestamp,
        },
    }
}
