//! The rows that the machine prescribes, in order of key.

ghost use Rattle.std.specs.Prelude.{◌≡◌, ◌<◌, ◌^◌, All, IfOk, OnOk, IsPermutation};
ghost use Rattle.std.specs.Bool.{Decides};
ghost use Rattle.std.specs.Ordering.{nat_cmp};
ghost use Rattle.std.specs.List.Sorted.{IsSortedByKey};
ghost use Rattle.records.specs.Machine.{Machine};
ghost use Rattle.records.specs.Valid.{IsValid};
ghost use Rattle.rows.specs.Prescribed.{history_rows, rows_for};
ghost use Rattle.rows.specs.Tables.{history_key};
ghost use Rattle.rows.specs.Widths.{IsStorableBalance, IsStorableStatus, IsStorableHistory};
ghost use Rattle.running.specs.Entries.{CanCome};
ghost use Rattle.running.specs.Running.{IsRunning};
ghost use Rattle.audit.specs.Order.{in_order};
ghost use Rattle.audit.specs.Told.{told_at};

use crate::law::known_laws;
use records::MAX_CLOCK;
use rows::{BalanceRow, HistoryRow, StatusRow};
use running::Running;
use std::alloc::{AllocError, Global};

/// The machine comes to the clock, if it can.
pub(crate) fn settle_if_it_can(running: &mut Running, clock: u64) -> Result<bool, AllocError>
    requires { (m : Machine) × IsRunning m running.old }
    ensures settled { OnOk result
        ((m : Machine) → IsRunning m running.old → IsRunning (told_at m clock) running.new) }
    ensures came { IfOk result
        (λ came. (m : Machine) → IsRunning m running.old → Decides came (CanCome m clock)) }
{
    if clock < running.clock() || MAX_CLOCK < clock {
        return Ok(false);
    }
    running.settle_to(clock)?;
    Ok(true)
}

/// The balance rows in order of account.
pub(crate) fn balance_rows(
    alloc: Global,
    version: u32,
    running: &Running,
) -> Result<Vec<BalanceRow>, AllocError>
    requires { (m : Machine) × IsRunning m running.now }
    ensures fit { IfOk result (λ rows. All IsStorableBalance rows.items) }
    ensures all { IfOk result
        (λ rows. (m : Machine) →
        IsRunning m running.now →
        rows.items ≡ in_order (λ row. row.account) (rows_for version m).balances) }
{
    known_laws();
    if version < 2 {
        return Ok(Vec::new(alloc));
    }
    running.balance_rows(alloc)
}

/// The status rows in order of transfer.
pub(crate) fn status_rows(
    alloc: Global,
    version: u32,
    running: &Running,
) -> Result<Vec<StatusRow>, AllocError>
    requires { (m : Machine) × IsRunning m running.now }
    ensures fit { IfOk result (λ rows. All IsStorableStatus rows.items) }
    ensures all { IfOk result
        (λ rows. (m : Machine) →
        IsRunning m running.now →
        rows.items ≡ in_order (λ row. row.transfer) (rows_for version m).statuses) }
{
    known_laws();
    if version < 2 {
        return Ok(Vec::new(alloc));
    }
    running.status_rows(alloc)
}

/// The history rows that a replay has told, in order of account and timestamp.
pub(crate) fn history_rows(
    alloc: Global,
    version: u32,
    told: Vec<HistoryRow>,
) -> Result<Vec<HistoryRow>, AllocError>
    requires { (m : Machine) × IsValid m × (told.items ≡ history_rows m) }
    ensures fit { IfOk result (λ rows. All IsStorableHistory rows.items) }
    ensures all { IfOk result
        (λ rows. (m : Machine) →
        IsValid m → told.items ≡ history_rows m →
        rows.items ≡ in_order history_key (rows_for version m).history) }
{
    known_laws();
    if version < 2 {
        return Ok(Vec::new(alloc));
    }
    let mut rows = told;
    sort(&mut rows);
    Ok(rows)
}

fn sort(rows: &mut [HistoryRow])
    requires { All (λ row. row.timestamp < 2 ^ 64) rows.old }
    ensures same { IsPermutation rows.old rows.new }
    ensures sorted { IsSortedByKey history_key nat_cmp rows.new }
{
    rows.sort_unstable_by_key(|row| (row.account, row.timestamp));
}
