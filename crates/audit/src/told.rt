//! What rows tell beside the fields of their entries, which stay in their cells.

ghost use Rattle.std.specs.Prelude.{◌≡◌, ◌<◌, ◌^◌, pos, All, [], ◌∷◌, map, IfOk};
ghost use Rattle.amount.specs.Column.{column_of};
ghost use Rattle.rows.specs.TypedRows.{lists_of};
ghost use Rattle.audit.specs.Shapes.{AreShaped, HasOneClock, IsAccountRow, IsTransferRow};
ghost use Rattle.audit.specs.Held.{IsHeld};

use amount::Amount;
use rows::{AccountCells, TenantRows, TransferCells};
use std::alloc::{AllocError, Global};

/// The clock, the timestamps of accounts and of transfers in order of id, and the failed ids of a
/// tenant.
#[derive(Debug, Drop)]
pub(crate) struct Told {
    // In nanoseconds, as the timestamps.
    pub(crate) clock: u64,
    pub(crate) account_times: Vec<u64>,
    pub(crate) transfer_times: Vec<u64>,
    pub(crate) failed: Vec<u128>,
}

impl Told {
    // Of rows whose cells can all be read.
    pub(crate) fn read(alloc: Global, rows: &TenantRows) -> Result<Told, AllocError>
        requires { AreShaped (lists_of rows.now) }
        ensures { IfOk result (IsHeld (lists_of rows.now)) }
    {
        let clock = clock_in(&rows.clocks);
        let account_times = times_of_accounts(alloc, &rows.accounts)?;
        let transfer_times = times_of_transfers(alloc, &rows.transfers)?;
        let failed = ids(alloc, &rows.failed)?;
        Ok(Told {
            clock,
            account_times,
            transfer_times,
            failed,
        })
    }
}

fn clock_in(clocks: &[i64]) -> u64
    requires { HasOneClock clocks.now }
    ensures only { clocks.now ≡ pos result ∷ [] }
    ensures fits { result < 2 ^ 63 }
{
    clocks[0] as u64
}

fn times_of_accounts(alloc: Global, rows: &[AccountCells]) -> Result<Vec<u64>, AllocError>
    requires { All IsAccountRow rows.now }
    ensures { IfOk result (λ times. map pos times.items ≡ map (λ row. row.timestamp) rows.now) }
{
    let mut times = Vec::new(alloc);
    for row in rows {
        times.push(time_of_account(row))?;
    }
    Ok(times)
}

fn time_of_account(row: &AccountCells) -> u64
    requires { IsAccountRow row.now }
    ensures { pos result ≡ row.now.timestamp }
{
    row.timestamp as u64
}

fn times_of_transfers(alloc: Global, rows: &[TransferCells]) -> Result<Vec<u64>, AllocError>
    requires { All IsTransferRow rows.now }
    ensures { IfOk result (λ times. map pos times.items ≡ map (λ row. row.timestamp) rows.now) }
{
    let mut times = Vec::new(alloc);
    for row in rows {
        times.push(time_of_transfer(row))?;
    }
    Ok(times)
}

fn time_of_transfer(row: &TransferCells) -> u64
    requires { IsTransferRow row.now }
    ensures { pos result ≡ row.now.timestamp }
{
    row.timestamp as u64
}

fn ids(alloc: Global, columns: &[[u8; 16]]) -> Result<Vec<u128>, AllocError>
    ensures fit { IfOk result (λ ids. All (λ id. id < 2 ^ 128) ids.items) }
    ensures all { IfOk result (λ ids. map column_of ids.items ≡ columns.now) }
{
    let mut ids = Vec::new(alloc);
    for column in columns {
        ids.push(id_in(column))?;
    }
    Ok(ids)
}

fn id_in(column: &[u8; 16]) -> u128
    ensures fits { result < 2 ^ 128 }
    ensures column { column.now ≡ column_of result }
{
    Amount::from_column(column).unwrap().value()
}
