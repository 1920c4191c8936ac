//! The first damage of one tenant.

ghost use Rattle.std.specs.Prelude.{◌≡◌, Some, IfOk, IfNone};
ghost use Rattle.rows.specs.TypedRows.{TypedRows, lists_of};
ghost use Rattle.running.specs.Entries.{machine_of};
ghost use Rattle.running.specs.Running.{IsRunning};
ghost use Rattle.audit.specs.Damage.{FindsWrong};
ghost use Rattle.audit.specs.Held.{Holds, IsHeld};
ghost use Rattle.audit.specs.Meeting.{HasMet};
ghost use Rattle.audit.specs.Sound.{AreSound};
ghost use Rattle.audit.specs.Stages.{IsClearBelow, FindsBelow};
ghost use Rattle.audit.specs.Told.{TellsRows, entries_told, machine_told};

use crate::DamageKind;
use crate::cells::first_difference;
use crate::derived::{balance_rows, settle_if_it_can, status_rows};
use crate::failed::first_bad_failed;
use crate::history::first_bad_history;
use crate::law::known_laws;
use crate::meeting::Meeting;
use crate::replayed::{Replayed, replay_told};
use crate::shape::first_misshapen;
use crate::times::first_bad_time;
use crate::told::Told;
use rows::{TenantRows, cells_tell_rows};
use running::{Running, failed_ids_stand_apart};
use std::alloc::{AllocError, Global};

/// What is wrong in a tenant's rows.
#[derive(Clone, Copy, Debug, PartialEq, Eq)]
pub(crate) struct Found {
    pub(crate) kind: DamageKind,
    pub(crate) place: usize,
}

/// The first damage of a tenant's rows in this version of the schema.
pub(crate) fn find(
    alloc: Global,
    version: u32,
    rows: &TenantRows,
) -> Result<Option<Found>, AllocError>
    ensures first { IfOk result (FindsWrong version (lists_of rows.now)) }
    ensures sound { IfOk result (λ found. IfNone found (AreSound version (lists_of rows.now))) }
{
    cells_tell_rows();
    if let Some(place) = first_misshapen(rows) {
        return Ok(damage_at(DamageKind::Shape, place));
    }
    let told = Told::read(alloc, rows)?;
    let time = first_bad_time(alloc, &told)?;
    if let Some(place) = time {
        return Ok(damage_at(DamageKind::Timestamp, place));
    }
    find_in_entries(alloc, version, rows, &told)
}

fn damage_at(kind: DamageKind, place: usize) -> Option<Found>
    ensures { result ≡ Some (record { kind = kind; place = place }) }
{
    Some(Found { kind, place })
}

fn find_in_entries(
    alloc: Global,
    version: u32,
    rows: &TenantRows,
    told: &Told,
) -> Result<Option<Found>, AllocError>
    requires tells { IsHeld (lists_of rows.now) told.now }
    requires clear { IsClearBelow version (lists_of rows.now) 3 }
    ensures first { IfOk result (FindsWrong version (lists_of rows.now)) }
    ensures sound { IfOk result (λ found. IfNone found (AreSound version (lists_of rows.now))) }
{
    cells_tell_rows();
    let mut meeting = Meeting::of(&rows.history);
    match replay_told(alloc, rows, told, &mut meeting)? {
        Replayed::Refused(place) => Ok(damage_at(DamageKind::Entry, place)),
        Replayed::Accepted(running) => find_behind(alloc, version, rows, told, running, &meeting),
    }
}

// Behind the entries.
fn find_behind(
    alloc: Global,
    version: u32,
    rows: &TenantRows,
    told: &Told,
    running: Running,
    meeting: &Meeting,
) -> Result<Option<Found>, AllocError>
    requires running { (typed : TypedRows)
        × TellsRows (lists_of rows.now) typed
        × Holds told.now typed
        × IsRunning (machine_of (entries_told typed)) running
        × HasMet (lists_of rows.now) typed meeting.now }
    requires clear { IsClearBelow version (lists_of rows.now) 4 }
    ensures first { IfOk result (FindsWrong version (lists_of rows.now)) }
    ensures sound { IfOk result (λ found. IfNone found (AreSound version (lists_of rows.now))) }
{
    known_laws();
    failed_ids_stand_apart();
    let mut running = running;
    let came = settle_if_it_can(&mut running, told.clock)?;
    let bad_failed = first_bad_failed(version, &told.failed, &running);
    let in_sums = find_in_sums(alloc, version, rows, running)?;
    if let Some(found) = in_sums {
        return Ok(Some(found));
    }
    let history = first_bad_history(alloc, version, rows, told, meeting)?;
    if let Some(place) = history {
        return Ok(damage_at(DamageKind::History, place));
    }
    if !came {
        return Ok(damage_at(DamageKind::Clock, 0));
    }
    match bad_failed {
        Some(place) => Ok(damage_at(DamageKind::FailedId, place)),
        None => Ok(None),
    }
}

// In the rows of balances and of statuses. The machine is let go.
fn find_in_sums(
    alloc: Global,
    version: u32,
    rows: &TenantRows,
    running: Running,
) -> Result<Option<Found>, AllocError>
    requires running { (typed : TypedRows)
        × TellsRows (lists_of rows.now) typed × IsRunning (machine_told typed) running }
    requires clear { IsClearBelow version (lists_of rows.now) 4 }
    ensures { IfOk result (FindsBelow version (lists_of rows.now) 6) }
{
    cells_tell_rows();
    let balance = first_difference(&rows.balances, &balance_rows(alloc, version, &running)?);
    if let Some(place) = balance {
        return Ok(damage_at(DamageKind::Balance, place));
    }
    let status = first_difference(&rows.statuses, &status_rows(alloc, version, &running)?);
    match status {
        Some(place) => Ok(damage_at(DamageKind::Status, place)),
        None => Ok(None),
    }
}
