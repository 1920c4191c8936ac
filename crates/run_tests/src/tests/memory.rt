//! Want of memory. To be run with each allocation refused in turn (`make alloc`). A disk in memory
//! that wants memory has failed: what was to be written may be found after a crash, or not.

use super::deeds::{CHAIN, Spelled, Told};
use super::disks::{
    Faulty, NEVER, TestDisk, TestStore, after_a_crash, crashed, empty, made, made_in, opened,
    reopen, rows_in, shut,
};
use super::scripts::{answers, steps};
use records::Unavailable;
use rows::AllRows;
use sqlite::Files;
use sqlite_disk::{Crash, Disk};
use std::alloc::Global;
use std::process::Abort;
use std::test::Fail;
use store::OpenFault;

/// A tenant with its accounts.
const ONE: &str = "tenant 0 = added
0@0 base = 0@1 0@2 0@3 0@4";

/// A new store, once there is memory for it.
fn created<D: Faulty>(alloc: Global) -> Result<TestStore<D>, Fail> {
    match made(alloc, empty(alloc, NEVER, NEVER)) {
        Ok(store) => Ok(store),
        Err((OpenFault::Unavailable(Unavailable::Memory), files)) => made_in(alloc, files),
        Err((OpenFault::Unavailable(Unavailable::Disk), files)) => {
            created_or_found(alloc, crashed(files))
        }
        Err((fault, _files)) => Err(fault.into()),
    }
}

/// A store that is made after a crash, or that is there.
fn created_or_found<D: Disk + Drop>(alloc: Global, files: Files<D>) -> Result<TestStore<D>, Fail> {
    match made(alloc, files) {
        Ok(store) => Ok(store),
        Err((OpenFault::NotALedger, files)) => opened(alloc, files),
        Err((fault, _files)) => Err(fault.into()),
    }
}

/// All rows of a store, which is closed.
fn last_rows<D: Disk + Drop>(mut store: TestStore<D>) -> Result<AllRows, Fail> {
    let rows = rows_in(&mut store);
    shut(store);
    rows
}

/// The rows of a new store, which is closed.
fn rows_of_new<D: Faulty>(alloc: Global) -> Result<AllRows, Fail> {
    last_rows(created::<D>(alloc)?)
}

#[test]
fn want_of_memory_in_create(rt: HostRuntime) -> Result<(), Fail> {
    let rows = rows_of_new::<TestDisk>(rt.alloc())?;
    assert!(rt;
        rows.directory.is_empty() && rows.tenants.is_empty(),
        "{rows:?}"
    );
    Ok(())
}

/// Adds a tenant with its accounts, if there is memory for that, and reads its rows.
fn added<D: Disk + Drop>(alloc: Global, store: &mut TestStore<D>) -> Option<AllRows> {
    let steps = steps(alloc, ONE).ok()?;
    let _answers = answers(alloc, store, &steps).ok()?;
    let rows = store.backend.all_rows().ok()?;
    match rows.tenants.as_slice() {
        [tenant] if tenant.rows.accounts.len() == 4 => Some(rows),
        _ => None,
    }
}

/// A store to which a tenant is added, and all rows, if there is memory for that.
fn with_a_tenant<D: Disk + Drop>(
    alloc: Global,
    mut store: TestStore<D>,
) -> Option<(TestStore<D>, AllRows)> {
    match added(alloc, &mut store) {
        Some(rows) => Some((store, rows)),
        None => {
            shut(store);
            None
        }
    }
}

/// A store with a tenant, and all rows, if there is memory for that.
fn base<D: Faulty>(alloc: Global) -> Option<(TestStore<D>, AllRows)> {
    match made(alloc, empty(alloc, NEVER, NEVER)) {
        Ok(store) => with_a_tenant(alloc, store),
        Err((_fault, _files)) => None,
    }
}

/// The same, once there is memory for it.
fn whole_base<D: Faulty>(alloc: Global) -> Result<(TestStore<D>, AllRows), Fail> {
    match base(alloc) {
        Some(base) => Ok(base),
        None => Ok(base(alloc).ok_or("no base")?),
    }
}

/// The store opened again, now that there is memory for it.
fn reopened_at_last<D: Disk + Drop>(mut store: TestStore<D>) -> Result<TestStore<D>, Fail> {
    match reopen(&mut store) {
        Ok(()) => Ok(store),
        Err(fault) => {
            shut(store);
            Err(fault.into())
        }
    }
}

/// The store opened again, once there is memory for it.
fn reopened<D: Crash + Drop>(alloc: Global, mut store: TestStore<D>) -> Result<TestStore<D>, Fail> {
    match reopen(&mut store) {
        Ok(()) => Ok(store),
        Err(OpenFault::Unavailable(Unavailable::Memory)) => reopened_at_last(store),
        Err(OpenFault::Unavailable(Unavailable::Disk)) => after_a_crash(alloc, store),
        Err(fault) => {
            shut(store);
            Err(fault.into())
        }
    }
}

/// The rows of a store with a tenant, and those that are found where it is opened again.
fn rows_around_reopening<D: Faulty>(alloc: Global) -> Result<(AllRows, AllRows), Fail> {
    let (store, before) = whole_base::<D>(alloc)?;
    let rows = last_rows(reopened(alloc, store)?)?;
    Ok((before, rows))
}

#[test]
fn want_of_memory_in_reopen(rt: HostRuntime) -> Result<(), Fail> {
    let (before, rows) = rows_around_reopening::<TestDisk>(rt.alloc())?;
    assert_eq!(rt; rows, before);
    Ok(())
}

/// What is found behind a chain that was told to be unavailable.
#[derive(Clone, Copy)]
struct Found {
    has_failed: bool,
    is_as_before: bool,
    again: Told,
}

/// Looks at a store behind a chain, opened again on its files where its disk has failed, and sends
/// the chain again.
fn found_after<D: Crash + Drop>(
    alloc: Global,
    store: TestStore<D>,
    chain: &Spelled,
    before: &AllRows,
) -> Result<Found, Fail> {
    let has_failed = !store.backend.is_ready();
    let mut store = if has_failed {
        after_a_crash(alloc, store)?
    } else {
        store
    };
    let rows = rows_in(&mut store);
    let again = chain.told(alloc, &mut store);
    shut(store);
    Ok(Found {
        has_failed,
        is_as_before: rows? == *before,
        again,
    })
}

/// Sends a chain. Where it is told to be unavailable, what is found behind it.
fn sent<D: Faulty, R: Abort>(
    rt: &R,
    alloc: Global,
    chain: &Spelled,
) -> Result<Option<Found>, Fail> {
    let (mut store, before) = whole_base::<D>(alloc)?;
    let told = chain.told(alloc, &mut store);
    if told == Told::Done {
        shut(store);
        return Ok(None);
    }
    assert_eq!(rt; told, Told::Unavailable);
    Ok(Some(found_after(alloc, store, chain, &before)?))
}

#[test]
fn want_of_memory_in_run_all(rt: HostRuntime) -> Result<(), Fail> {
    let chain = match CHAIN.spelled(rt.alloc()) {
        Ok(chain) => chain,
        Err(_) => CHAIN.spelled(rt.alloc())?,
    };
    if let Some(found) = sent::<TestDisk, _>(&rt, rt.alloc(), &chain)? {
        let want = if found.is_as_before {
            Told::Done
        } else {
            Told::DoneBefore
        };
        assert!(rt; found.is_as_before || found.has_failed);
        assert_eq!(rt; found.again, want);
    }
    Ok(())
}
