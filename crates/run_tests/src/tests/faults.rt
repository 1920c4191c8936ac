//! Disks that fail while a tenant sends a chain, or while a tenant is added. What an opening finds
//! then is all of that or nothing, and no other tenant's rows are touched.

use super::deeds::{CHAIN, Deed, JOINING, Spelled, Told};
use super::disks::{Faulty, NEVER, TestDisk, TestStore, after_a_crash, new_store, rows_in, shut};
use super::scripts::runs;
use rows::AllRows;
use sqlite_disk::{Crash, Disk};
use std::alloc::Global;
use std::process::Abort;
use std::test::Fail;

/// Two tenants with their accounts.
const TWO: &str = "tenant 0 = added
tenant 1 = added
0@0 base = 0@1 0@2 0@3 0@4
1@0 base = 0@1 0@2 0@3 0@4";

/// What others ask for after a fault.
const LATER: &str = "1@0 transfers 100 1 2 10 = unavailable 503 Service Unavailable
tenant 2 = unavailable
key 3 of 1 = unavailable";

/// Which of the two files is on a disk that fails.
#[derive(Clone, Copy)]
enum Failing {
    Log,
    Database,
}

/// What becomes of a deed.
#[derive(Clone, Copy, Debug, PartialEq, Eq)]
enum Outcome {
    /// It was told to be unavailable, and nothing of it is found.
    Undone,
    /// It was told to be unavailable, and it is found.
    DoneUntold,
    /// It was told, and it is found.
    Done,
}

/// The outcomes for a disk that fails at the first call of a deed, at its last one, or behind it.
/// The last call of the log is of the commit: until it has been made nothing is kept, and none is
/// made after it. The last of the database file comes before that. So no deed of these is told to
/// be unavailable and found all the same.
const OUTCOMES: [Outcome; 3] = [Outcome::Undone, Outcome::Undone, Outcome::Done];

/// Adds the two tenants to a store, and reads the rows before a deed and those after it.
fn around<D: Disk + Drop>(
    rt: &impl Abort,
    alloc: Global,
    store: &mut TestStore<D>,
    deed: &Spelled,
) -> Result<(AllRows, AllRows), Fail> {
    runs(rt, alloc, store, TWO, false)?;
    let before = rows_in(store)?;
    let told = deed.told(alloc, store);
    let after = rows_in(store)?;
    assert_eq!(rt; told, Told::Done);
    Ok((before, after))
}

/// The rows before a deed, and those after it.
fn both<D: Faulty, R: Abort>(
    rt: &R,
    alloc: Global,
    deed: &Spelled,
) -> Result<(AllRows, AllRows), Fail> {
    let mut store: TestStore<D> = new_store(alloc, NEVER, NEVER)?;
    let rows = around(rt, alloc, &mut store, deed);
    shut(store);
    rows
}

/// Adds the two tenants to a store, and tells what a deed is told then.
fn told_among_two<D: Disk + Drop>(
    rt: &impl Abort,
    alloc: Global,
    store: &mut TestStore<D>,
    deed: &Spelled,
) -> Result<Told, Fail> {
    runs(rt, alloc, store, TWO, false)?;
    Ok(deed.told(alloc, store))
}

/// What is found in the files of a store after a crash, and what a deed is told then.
fn found<D: Crash + Drop>(
    alloc: Global,
    store: TestStore<D>,
    deed: &Spelled,
) -> Result<(AllRows, Told), Fail> {
    let mut store = after_a_crash(alloc, store)?;
    let rows = rows_in(&mut store);
    let told = deed.told(alloc, &mut store);
    shut(store);
    Ok((rows?, told))
}

/// What becomes of a deed where a file fails behind so many calls, as found after a crash. The same
/// deed is told then whether it was done. None where it became anything else.
fn became<D: Faulty, R: Abort>(
    rt: &R,
    alloc: Global,
    (failing, calls): (Failing, u64),
    deed: &Spelled,
    (before, after): (&AllRows, &AllRows),
) -> Result<Option<Outcome>, Fail> {
    let (log, database) = match failing {
        Failing::Log => (calls, NEVER),
        Failing::Database => (NEVER, calls),
    };
    let mut store: TestStore<D> = new_store(alloc, log, database)?;
    let told = match told_among_two(rt, alloc, &mut store, deed) {
        Ok(told) => told,
        Err(fail) => {
            shut(store);
            return Err(fail);
        }
    };
    let (rows, again) = found(alloc, store, deed)?;
    Ok(match (told, again) {
        (Told::Unavailable, Told::Done) if rows == *before => Some(Outcome::Undone),
        (Told::Unavailable, Told::DoneBefore) if rows == *after => Some(Outcome::DoneUntold),
        (Told::Done, Told::DoneBefore) if rows == *after => Some(Outcome::Done),
        _ => None,
    })
}

/// A deed leaves the second tenant's rows, and has each outcome in turn where a file fails behind so many calls.
fn has_each_outcome<D: Faulty, R: Abort>(
    rt: &R,
    alloc: Global,
    deed: &Deed,
    failing: Failing,
    calls: [u64; 3],
) -> Result<(), Fail> {
    let deed = deed.spelled(alloc)?;
    let (before, after) = both::<D, _>(rt, alloc, &deed)?;
    assert!(rt; before != after);
    let second = before.tenants.get(1).ok_or("no second tenant")?;
    assert!(rt; after.tenants.get(1) == Some(second));
    for (calls, want) in calls.into_iter().zip(OUTCOMES) {
        let got = became::<D, _>(rt, alloc, (failing, calls), &deed, (&before, &after))?;
        assert_eq!(rt; got, Some(want), "behind {calls} calls");
    }
    Ok(())
}

/// Sends a deed among two tenants, whose disk fails in it, and then what others ask for.
fn asked_after_a_fault<D: Disk + Drop>(
    rt: &impl Abort,
    alloc: Global,
    store: &mut TestStore<D>,
    deed: &Spelled,
) -> Result<(), Fail> {
    let told = told_among_two(rt, alloc, store, deed)?;
    assert_eq!(rt; told, Told::Unavailable);
    runs(rt, alloc, store, LATER, false)
}

/// What is found after a crash behind all that, and how the deed is answered then.
fn found_later<D: Faulty, R: Abort>(
    rt: &R,
    alloc: Global,
    calls: u64,
    deed: &Spelled,
) -> Result<(AllRows, Told), Fail> {
    let mut store: TestStore<D> = new_store(alloc, calls, NEVER)?;
    match asked_after_a_fault(rt, alloc, &mut store, deed) {
        Ok(()) => found(alloc, store, deed),
        Err(fail) => {
            shut(store);
            Err(fail)
        }
    }
}

#[test]
fn nothing_asked_after_a_fault_is_found(rt: HostRuntime) -> Result<(), Fail> {
    let alloc = rt.alloc();
    let deed = CHAIN.spelled(alloc)?;
    let (before, _after) = both::<TestDisk, _>(&rt, alloc, &deed)?;
    let (rows, told) = found_later::<TestDisk, _>(&rt, alloc, 91, &deed)?;
    assert!(rt; rows == before);
    assert_eq!(rt; told, Told::Done);
    Ok(())
}

#[test]
fn a_chain_over_a_log_that_fails(rt: HostRuntime) -> Result<(), Fail> {
    has_each_outcome::<TestDisk, _>(&rt, rt.alloc(), &CHAIN, Failing::Log, [91, 108, 109])
}

#[test]
fn a_chain_over_a_database_file_that_fails(rt: HostRuntime) -> Result<(), Fail> {
    has_each_outcome::<TestDisk, _>(&rt, rt.alloc(), &CHAIN, Failing::Database, [42, 53, 54])
}

#[test]
fn a_tenant_over_a_log_that_fails(rt: HostRuntime) -> Result<(), Fail> {
    has_each_outcome::<TestDisk, _>(&rt, rt.alloc(), &JOINING, Failing::Log, [91, 108, 109])
}

#[test]
fn a_tenant_over_a_database_file_that_fails(rt: HostRuntime) -> Result<(), Fail> {
    has_each_outcome::<TestDisk, _>(&rt, rt.alloc(), &JOINING, Failing::Database, [42, 49, 50])
}
