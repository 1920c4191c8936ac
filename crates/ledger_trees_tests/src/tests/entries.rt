//! An account's entries over trees.

use super::bare::{Bare, add, bare_ledger, id, transfer};
use ledger_entries::{TenantAccount, first_entries_from, first_entries_until};
use ledger_layout::TenantRow;
use ledger_sql::{EntryCells, EntrySink};
use rows::HistoryCells;
use std::alloc::Global;
use std::rt::HostRuntime;
use std::test::Fail;

/// Takes the times and the transfers' ids of entries until it has `most`.
#[derive(Drop)]
struct Taken {
    entries: Vec<(i64, u8)>,
    most: usize,
    is_full: bool,
}

impl Taken {
    fn new(alloc: Global, most: usize) -> Taken
        ensures { result.is_full ≡ false }
    {
        Taken {
            entries: Vec::new(alloc),
            most,
            is_full: false,
        }
    }
}

impl EntrySink for Taken {
    ghost takes = { λ _ _ _. Unit {0} };

    ghost is_full = { λ taken. taken.is_full };

    fn entry(&mut self, entry: &EntryCells) -> bool {
        let told = (entry.history.timestamp, entry.transfer.id[15]);
        self.is_full = self.entries.push(told).is_err() || self.entries.len() >= self.most;
        !self.is_full
    }
}

fn add_history(tables: &mut Bare, tenant: i64, account: u8, time: i64) -> Result<(), Fail> {
    let cells = HistoryCells {
        account: id(account),
        timestamp: time,
        dp: id(0),
        dd: id(0),
        cp: id(0),
        cc: id(0),
    };
    add(tables, &TenantRow { tenant, cells })?;
    Ok(())
}

fn add_transfer(tables: &mut Bare, tenant: i64, low: u8, time: i64) -> Result<(), Fail> {
    add(tables, &transfer(tenant, low, time))?;
    Ok(())
}

/// Adds a transfer and the rows that two accounts have of it.
fn add_entry(tables: &mut Bare, id: u8, time: i64) -> Result<(), Fail> {
    add_transfer(tables, 7, id, time)?;
    add_history(tables, 7, 1, time)?;
    add_history(tables, 7, 2, time)
}

const ACCOUNT: TenantAccount = TenantAccount { tenant: 7, id: 1 };

/// Four entries of the account, at the times 10 to 40, and rows of others.
fn four_entries(alloc: Global) -> Result<Bare, Fail> {
    let mut tables = bare_ledger(alloc)?;
    add_entry(&mut tables, 3, 30)?;
    add_entry(&mut tables, 1, 10)?;
    add_entry(&mut tables, 4, 40)?;
    add_entry(&mut tables, 2, 20)?;
    add_transfer(&mut tables, 8, 5, 20)?;
    add_history(&mut tables, 8, 1, 20)?;
    Ok(tables)
}

#[test]
fn entries_come_oldest_first_from_a_time(rt: HostRuntime) -> Result<(), Fail> {
    let mut tables = four_entries(rt.alloc())?;
    let mut taken = Taken::new(rt.alloc(), 9);
    first_entries_from(&mut tables, rt.alloc(), ACCOUNT, 20, 9, &mut taken)?;
    assert_eq!(&rt;
        taken.entries.as_slice(),
        [(20, 2), (30, 3), (40, 4)].as_slice()
    );
    Ok(())
}

#[test]
fn entries_come_newest_first_up_to_a_time(rt: HostRuntime) -> Result<(), Fail> {
    let mut tables = four_entries(rt.alloc())?;
    let mut taken = Taken::new(rt.alloc(), 9);
    first_entries_until(&mut tables, rt.alloc(), ACCOUNT, 30, 9, &mut taken)?;
    assert_eq!(&rt;
        taken.entries.as_slice(),
        [(30, 3), (20, 2), (10, 1)].as_slice()
    );
    Ok(())
}

#[test]
fn a_full_sink_and_the_count_end_the_entries(rt: HostRuntime) -> Result<(), Fail> {
    let mut tables = four_entries(rt.alloc())?;
    let mut two = Taken::new(rt.alloc(), 2);
    first_entries_from(&mut tables, rt.alloc(), ACCOUNT, 0, 9, &mut two)?;
    assert_eq!(&rt; two.entries.as_slice(), [(10, 1), (20, 2)].as_slice());
    let mut three = Taken::new(rt.alloc(), 9);
    first_entries_until(&mut tables, rt.alloc(), ACCOUNT, 99, 3, &mut three)?;
    assert_eq!(&rt;
        three.entries.as_slice(),
        [(40, 4), (30, 3), (20, 2)].as_slice()
    );
    let mut none = Taken::new(rt.alloc(), 9);
    first_entries_from(&mut tables, rt.alloc(), ACCOUNT, 0, 0, &mut none)?;
    assert_eq!(&rt; none.entries.len(), 0);
    Ok(())
}

/// 300 entries are more than two pieces of the history.
#[test]
fn the_history_is_read_over_its_pieces(rt: HostRuntime) -> Result<(), Fail> {
    let mut tables = bare_ledger(rt.alloc())?;
    for time in 1..301 {
        add_entry(&mut tables, 1, time)?;
    }
    let mut up = Taken::new(rt.alloc(), 999);
    first_entries_from(&mut tables, rt.alloc(), ACCOUNT, 0, 999, &mut up)?;
    let mut down = Taken::new(rt.alloc(), 999);
    first_entries_until(&mut tables, rt.alloc(), ACCOUNT, 300, 999, &mut down)?;
    assert_eq!(&rt; up.entries.len(), 300);
    assert_eq!(&rt; down.entries.len(), 300);
    for (place, entry) in up.entries.iter().enumerate() {
        assert_eq!(&rt; entry.0, place as i64 + 1);
    }
    for (place, entry) in down.entries.iter().enumerate() {
        assert_eq!(&rt; entry.0, 300 - place as i64);
    }
    Ok(())
}

#[test]
fn an_entry_stands_for_each_transfer_of_the_time(rt: HostRuntime) -> Result<(), Fail> {
    let mut tables = bare_ledger(rt.alloc())?;
    add_history(&mut tables, 7, 1, 10)?;
    add_entry(&mut tables, 1, 20)?;
    add_transfer(&mut tables, 7, 2, 20)?;
    let mut taken = Taken::new(rt.alloc(), 9);
    first_entries_from(&mut tables, rt.alloc(), ACCOUNT, 0, 9, &mut taken)?;
    assert_eq!(&rt; taken.entries.as_slice(), [(20, 1), (20, 2)].as_slice());
    Ok(())
}
