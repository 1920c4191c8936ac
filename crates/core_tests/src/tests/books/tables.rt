use crate::tests::asserting::same;
use chain::Tables;
use plain::{Book, PlainTables};
use records::Unavailable;
use std::test::Fail;

#[test]
fn starts_without_records(rt: HostRuntime) -> Result<(), Unavailable> {
    let mut tables = PlainTables::new(rt.alloc());
    same(&rt, "the clock", tables.clock()?, 0);
    same(&rt, "account 1", tables.account(1)?, None);
    same(&rt, "transfer 1", tables.transfer(1)?, None);
    same(&rt, "its state", tables.pending_state(1)?, None);
    same(&rt, "whether it failed", tables.failed(1)?, false);
    same(&rt, "accounts", tables.accounts().len(), 0);
    same(&rt, "transfers", tables.transfers().len(), 0);
    same(&rt, "failed ids", tables.failed_ids().len(), 0);
    Ok(())
}

#[test]
fn goes_back_to_the_mark_and_to_the_beginning(rt: HostRuntime) -> Result<(), Unavailable> {
    let mut tables = PlainTables::new(rt.alloc());
    tables.settle(5)?;
    tables.begin();
    tables.settle(9)?;
    tables.mark()?;
    tables.back_to_mark()?;
    same(&rt, "at the mark", tables.clock()?, 9);
    tables.mark()?;
    tables.release_mark()?;
    same(&rt, "the mark released", tables.clock()?, 9);
    tables.abandon();
    same(&rt, "at the beginning", tables.clock()?, 5);
    Ok(())
}

// The clock of a tenant as a batch begins.
fn clock_of(book: &mut Book, digest: &[u8; 32]) -> Result<u64, Fail> {
    let tables = book.tables(digest).ok_or("no such tenant")?;
    tables.begin();
    Ok(tables.clock()?)
}

// The clock of a new tenant goes on to 7; it was this.
fn settle(book: &mut Book, digest: &[u8; 32]) -> Result<u64, Fail> {
    let tables = book.tables(digest).ok_or("no such tenant")?;
    tables.begin();
    let clock = tables.clock()?;
    if clock <= 7 {
        tables.settle(7)?;
    }
    Ok(clock)
}

#[test]
fn keeps_each_tenants_tables(rt: HostRuntime) -> Result<(), Fail> {
    let mut book = Book::new(rt.alloc());
    book.add([0; 32], PlainTables::new(rt.alloc()))?;
    same(&rt, "a second", book.tables(&[1; 32]).is_none(), true);
    book.add([1; 32], PlainTables::new(rt.alloc()))?;
    same(&rt, "the first", settle(&mut book, &[0; 32])?, 0);
    same(&rt, "the second", clock_of(&mut book, &[1; 32])?, 0);
    same(&rt, "the first again", clock_of(&mut book, &[0; 32])?, 7);
    Ok(())
}
