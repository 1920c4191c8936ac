//! What is listed over trees.

use super::bare::{Bare, account, add, add_at, bare_ledger, id, put_version, transfer};
use ledger_layout::{ClockRow, FailedCells, TenantEntry, TenantRow};
use ledger_spans::{
    directory, list_accounts, list_balances, list_clocks, list_failed, list_history, list_statuses,
    list_transfers, list_versions, newest_accounts, newest_transfers, oldest_accounts,
    oldest_transfers,
};
use records::Unavailable;
use rows::{BalanceCells, HistoryCells, StatusCells};
use std::alloc::Global;
use std::rt::HostRuntime;
use std::test::Fail;

/// A ledger whose tenant 1 has three accounts and three transfers, and tenant 2 one of each.
fn two_tenants(alloc: Global) -> Result<Bare, Fail> {
    let mut tables = bare_ledger(alloc)?;
    add(&mut tables, &account(1, 3, 10))?;
    add(&mut tables, &account(2, 1, 20))?;
    add(&mut tables, &account(1, 1, 20))?;
    add(&mut tables, &account(1, 2, 30))?;
    add(&mut tables, &transfer(1, 6, 40))?;
    add(&mut tables, &transfer(1, 5, 50))?;
    add(&mut tables, &transfer(2, 5, 50))?;
    add(&mut tables, &transfer(1, 4, 60))?;
    Ok(tables)
}

#[test]
fn accounts_of_a_span_come_in_order_of_time(rt: HostRuntime) -> Result<(), Fail> {
    let alloc = rt.alloc();
    let mut tables = two_tenants(alloc)?;
    let oldest = oldest_accounts(alloc, &mut tables, 1, 10, 20, 9)?;
    assert_eq!(&rt; oldest.len(), 2);
    assert_eq!(&rt; (oldest[0].id, oldest[0].timestamp), (3, 10));
    assert_eq!(&rt; (oldest[1].id, oldest[1].timestamp), (1, 20));
    let newest = newest_accounts(alloc, &mut tables, 1, 0, 99, 2)?;
    assert_eq!(&rt; newest.len(), 2);
    assert_eq!(&rt; (newest[0].id, newest[0].timestamp), (2, 30));
    assert_eq!(&rt; (newest[1].id, newest[1].timestamp), (1, 20));
    Ok(())
}

#[test]
fn transfers_of_a_span_come_in_order_of_time(rt: HostRuntime) -> Result<(), Fail> {
    let alloc = rt.alloc();
    let mut tables = two_tenants(alloc)?;
    let oldest = oldest_transfers(alloc, &mut tables, 1, 0, 99, 2)?;
    assert_eq!(&rt; oldest.len(), 2);
    assert_eq!(&rt; (oldest[0].id, oldest[0].timestamp), (6, 40));
    assert_eq!(&rt; (oldest[1].id, oldest[1].timestamp), (5, 50));
    let newest = newest_transfers(alloc, &mut tables, 1, 50, 60, 9)?;
    assert_eq!(&rt; newest.len(), 2);
    assert_eq!(&rt; (newest[0].id, newest[0].timestamp), (4, 60));
    assert_eq!(&rt; (newest[1].id, newest[1].timestamp), (5, 50));
    Ok(())
}

#[test]
fn an_account_whose_number_is_too_large_is_refused(rt: HostRuntime) -> Result<(), Fail> {
    let alloc = rt.alloc();
    let mut tables = bare_ledger(alloc)?;
    let mut row = account(1, 1, 10);
    row.cells.code = 65536;
    add(&mut tables, &row)?;
    assert_eq!(&rt;
        oldest_accounts(alloc, &mut tables, 1, 0, 99, 9).err(),
        Some(Unavailable::Size)
    );
    Ok(())
}

#[test]
fn accounts_and_transfers_are_listed_by_id(rt: HostRuntime) -> Result<(), Fail> {
    let alloc = rt.alloc();
    let mut tables = two_tenants(alloc)?;
    assert_eq!(&rt;
        list_accounts(alloc, &mut tables, 1)?.as_slice(),
        [
            account(1, 1, 20).cells,
            account(1, 2, 30).cells,
            account(1, 3, 10).cells
        ]
        .as_slice()
    );
    assert_eq!(&rt;
        list_transfers(alloc, &mut tables, 1)?.as_slice(),
        [
            transfer(1, 4, 60).cells,
            transfer(1, 5, 50).cells,
            transfer(1, 6, 40).cells
        ]
        .as_slice()
    );
    Ok(())
}

#[test]
fn balances_statuses_and_failed_ids_are_listed_by_id(rt: HostRuntime) -> Result<(), Fail> {
    let alloc = rt.alloc();
    let mut tables = bare_ledger(alloc)?;
    let balance = BalanceCells {
        account: id(7),
        dp: id(1),
        dd: id(2),
        cp: id(3),
        cc: id(4),
    };
    let status = StatusCells {
        transfer: id(8),
        state: 1,
        due: 90,
    };
    for tenant in 1..3 {
        add(
            &mut tables,
            &TenantRow {
                tenant,
                cells: balance,
            },
        )?;
        add(
            &mut tables,
            &TenantRow {
                tenant,
                cells: status,
            },
        )?;
        for low in [9, 5] {
            add(
                &mut tables,
                &TenantRow {
                    tenant,
                    cells: FailedCells { id: id(low) },
                },
            )?;
        }
    }
    assert_eq!(&rt;
        list_balances(alloc, &mut tables, 2)?.as_slice(),
        [balance].as_slice()
    );
    assert_eq!(&rt;
        list_statuses(alloc, &mut tables, 2)?.as_slice(),
        [status].as_slice()
    );
    assert_eq!(&rt;
        list_failed(alloc, &mut tables, 2)?.as_slice(),
        [id(5), id(9)].as_slice()
    );
    Ok(())
}

#[test]
fn a_history_is_listed_by_account_and_timestamp(rt: HostRuntime) -> Result<(), Fail> {
    let alloc = rt.alloc();
    let mut tables = bare_ledger(alloc)?;
    for (tenant, low, timestamp) in [(1, 2, 10), (1, 1, 30), (2, 1, 15), (1, 1, 20)] {
        add(
            &mut tables,
            &TenantRow {
                tenant,
                cells: entry(low, timestamp),
            },
        )?;
    }
    assert_eq!(&rt;
        list_history(alloc, &mut tables, 1)?.as_slice(),
        [entry(1, 20), entry(1, 30), entry(2, 10)].as_slice()
    );
    Ok(())
}

fn entry(low: u8, timestamp: i64) -> HistoryCells {
    HistoryCells {
        account: id(low),
        timestamp,
        dp: id(1),
        dd: id(2),
        cp: id(3),
        cc: id(4),
    }
}

#[test]
fn versions_clocks_and_the_directory_are_listed(rt: HostRuntime) -> Result<(), Fail> {
    let alloc = rt.alloc();
    let mut tables = bare_ledger(alloc)?;
    put_version(&mut tables, 4)?;
    assert_eq!(&rt;
        list_versions(alloc, &mut tables)?.as_slice(),
        [4].as_slice()
    );
    for (number, name) in [(7, "south"), (5, "north")] {
        add_at(
            &mut tables,
            number,
            &ClockRow {
                clock: number * 100,
            },
        )?;
        add_at(
            &mut tables,
            number,
            &TenantEntry {
                name: String::from_str(alloc, name)?,
                digest: [2; 32],
            },
        )?;
    }
    assert_eq!(&rt;
        list_clocks(alloc, &mut tables, 5)?.as_slice(),
        [500].as_slice()
    );
    assert_eq!(&rt; list_clocks(alloc, &mut tables, 6)?.len(), 0);
    let listed = directory(alloc, &mut tables)?;
    assert_eq!(&rt; listed.len(), 2);
    assert_eq!(&rt; (listed[0].number, listed[0].name.as_str()), (5, "north"));
    assert_eq!(&rt; (listed[1].number, listed[1].name.as_str()), (7, "south"));
    assert_eq!(&rt; listed[0].digest, [2; 32]);
    Ok(())
}
