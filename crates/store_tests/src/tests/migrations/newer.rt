use audit::check;
use migrate::rows_in_version;
use rows::{
    AccountCells, AllRows, BalanceCells, DirectoryRow, HistoryCells, StatusCells, TenantOfDigest,
    TenantRows, TransferCells,
};
use std::alloc::{AllocError, Global};
use std::test::Fail;

// A pending transfer of 100 with a timeout of a second, at 5; the clock has passed it.
const CLOCK: i64 = 1_000_000_005;

fn column(digit: u8) -> [u8; 16] {
    let mut bytes = [0; 16];
    bytes[15] = digit;
    bytes
}

fn account(id: u8, flags: i64) -> AccountCells {
    AccountCells {
        id: column(id),
        user_data_128: [0; 16],
        user_data_64: [0; 8],
        user_data_32: 0,
        ledger: 7,
        code: 10,
        flags,
        timestamp: i64::from(id),
    }
}

fn pending() -> TransferCells {
    TransferCells {
        id: column(100),
        debit: column(1),
        credit: column(2),
        amount: column(100),
        pending_id: column(0),
        user_data_128: [0; 16],
        user_data_64: [0; 8],
        user_data_32: 0,
        timeout: 1,
        ledger: 7,
        code: 1,
        flags: 2,
        timestamp: 5,
        at_clock: 5,
    }
}

// Posted too late: the post was refused at the clock, so that no more than the clock tells of it.
fn listed(alloc: Global) -> Result<TenantRows, AllocError> {
    Ok(TenantRows {
        clocks: vec![in alloc; CLOCK]?,
        accounts: vec![in alloc; account(1, 0), account(2, 0), account(3, 10), account(4, 0)]?,
        transfers: vec![in alloc; pending()]?,
        balances: Vec::new(alloc),
        statuses: Vec::new(alloc),
        history: Vec::new(alloc),
        failed: Vec::new(alloc),
    })
}

// What newer versions have more: no balance has the transfer, and the history of accounts 1 and 2
// keeps it.
fn derive(rows: &mut TenantRows) -> Result<(), AllocError> {
    for id in 1..5u8 {
        rows.balances.push(BalanceCells {
            account: column(id),
            dp: column(0),
            dd: column(0),
            cp: column(0),
            cc: column(0),
        })?;
    }
    rows.statuses.push(StatusCells {
        transfer: column(100),
        state: 3,
        due: CLOCK,
    })?;
    let debit = HistoryCells {
        account: column(1),
        timestamp: 5,
        dp: column(100),
        dd: column(0),
        cp: column(0),
        cc: column(0),
    };
    rows.history.push(debit)?;
    rows.history.push(HistoryCells {
        account: column(2),
        dp: column(0),
        cp: column(100),
        ..debit
    })?;
    Ok(())
}

// Two tenants with the same rows.
fn file(alloc: Global, version: u32) -> Result<AllRows, AllocError> {
    let mut all = AllRows {
        version,
        directory: Vec::new(alloc),
        tenants: Vec::new(alloc),
    };
    for (number, name) in [(1, "tenant-1"), (2, "tenant-2")] {
        all.directory.push(DirectoryRow {
            number: i64::from(number),
            name: String::from_str(alloc, name)?,
            digest: [number; 32],
        })?;
        let mut rows = listed(alloc)?;
        if version > 1 {
            derive(&mut rows)?;
        }
        all.tenants.push(TenantOfDigest {
            digest: [number; 32],
            rows,
        })?;
    }
    Ok(all)
}

// What has expired is told so, with its due time; the history keeps it, and no balance has it.
#[test]
fn an_expired_transfer_is_migrated(rt: HostRuntime) -> Result<(), Fail> {
    for (from, to) in [(1, 2), (1, 3), (2, 3)] {
        let rows = file(rt.alloc(), from)?;
        check(rt.alloc(), &rows)?;
        assert!(rt; rows.version < 3);
        let newer = rows_in_version(rt.alloc(), rows, to)?;
        assert!(rt; newer == file(rt.alloc(), to)?);
        assert!(rt; check(rt.alloc(), &newer).is_ok());
    }
    Ok(())
}
