//! Ledgers in memory, kept by either engine.

use super::doubted::{Doubted, Store};
use super::unclaimed::store_claims_nothing;
use ledger_sql::{adding, creating, stages};
use ledger_trees::LedgerTrees;
use sqlite::{Connection, Files, Options};
use sqlite_trees::error::StoreError;
use std::alloc::Global;
use std::test::Fail;

const SMALL: Options = Options {
    cache_pages: 100,
    spill_pages: 100,
    checkpoint_frames: 100,
    seed: 7,
};

/// A new ledger without tenants over texts of SQL, in the transaction that makes it.
fn begun_ledger(alloc: Global) -> Result<Connection<Store>, Fail> {
    let files = Files {
        log: Doubted::new(alloc),
        db: Doubted::new(alloc),
    };
    let mut conn = match Connection::open_files(alloc, files, SMALL) {
        Ok(conn) => conn,
        Err((error, _)) => return Err(error.into()),
    };
    stages::begin(&mut conn)?;
    creating::make_tables(&mut conn)?;
    Ok(conn)
}

/// A new ledger without tenants.
pub fn empty_ledger(alloc: Global) -> Result<Connection<Store>, Fail> {
    let mut conn = begun_ledger(alloc)?;
    stages::commit(&mut conn)?;
    Ok(conn)
}

/// A new ledger of two tenants.
pub fn new_ledger(alloc: Global) -> Result<Connection<Store>, Fail> {
    let mut conn = begun_ledger(alloc)?;
    adding::add_tenant(&mut conn, 1, "one", &[1; 32])?;
    adding::add_clock(&mut conn, 1, 50)?;
    adding::add_tenant(&mut conn, 2, "two", &[2; 32])?;
    adding::add_clock(&mut conn, 2, 60)?;
    stages::commit(&mut conn)?;
    Ok(conn)
}

/// The ledger in a store, over trees.
pub fn over_trees(alloc: Global, store: Store) -> Result<LedgerTrees<Store>, Fail> {
    store_claims_nothing(&store);
    match LedgerTrees::over(alloc, store) {
        Ok(trees) => Ok(trees),
        Err(_) => Err(Fail::from(StoreError::Broken)),
    }
}

/// The ledger in a store, over texts of SQL. Each rule of the tables is tested on each row.
pub fn over_texts(alloc: Global, store: Store) -> Result<Connection<Store>, Fail> {
    match Connection::over(alloc, store) {
        Ok(conn) => Ok(conn),
        Err((error, _)) => Err(error.into()),
    }
}
