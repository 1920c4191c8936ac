//! The rows of a newer version of the schema.

ghost use Rattle.std.specs.Prelude.{◌≡◌, ◌<◌, List, IfOk};
ghost use Rattle.records.specs.Machine.{Machine, new_machine};
ghost use Rattle.records.specs.Valid.{IsValid};
ghost use Rattle.rows.specs.Prescribed.{history_rows};
ghost use Rattle.rows.specs.TypedRows.{lists_of};
ghost use Rattle.running.specs.declared.entry.Entry.{Entry};
ghost use Rattle.running.specs.Entries.{AreNext, machine_of};
ghost use Rattle.running.specs.Running.{IsRunning};
ghost use Rattle.audit.specs.Held.{AreEntriesIn};
ghost use Rattle.audit.specs.Newer.{none_failed};
ghost use Rattle.audit.specs.Sound.{AreRowsOf, AreSound};

use crate::cells::in_cells;
use crate::derived::{balance_rows, history_rows, status_rows};
use crate::entries::places;
use crate::in_time::InTime;
use crate::sound_law::sound_rows_lead;
use crate::told::Told;
use rows::{HistoryRow, TenantRows};
use running::{ReplayFault, Running, replay_from};
use std::alloc::{AllocError, Global};

/// A tenant's rows in another version of the schema, from those in a version without failed ids:
/// the rows there of the same machine, in which no id has failed. The rows have to be sound, as
/// `check` finds. It takes as much time and memory as `check` does.
pub fn rows_in_version(
    alloc: Global,
    version: u32,
    to: u32,
    rows: TenantRows,
) -> Result<TenantRows, AllocError>
    requires older { version < 3 }
    requires sound { AreSound version (lists_of rows) }
    ensures same { IfOk result (λ newer. (m : Machine) →
        IsValid m → AreRowsOf version m (lists_of rows) →
        AreRowsOf to (none_failed m) (lists_of newer)) }
    ensures sound { IfOk result (λ newer. AreSound to (lists_of newer)) }
{
    sound_rows_lead();
    let (running, told) = sound_machine(alloc, version, &rows)?;
    let balances = in_cells(alloc, &balance_rows(alloc, to, &running)?)?;
    let statuses = in_cells(alloc, &status_rows(alloc, to, &running)?)?;
    let history = in_cells(alloc, &history_rows(alloc, to, told)?)?;
    Ok(TenantRows {
        balances,
        statuses,
        history,
        ..rows
    })
}

// The machine of sound rows, but for failed ids, and its history in order of entry.
fn sound_machine(
    alloc: Global,
    version: u32,
    rows: &TenantRows,
) -> Result<(Running, Vec<HistoryRow>), AllocError>
    requires { AreSound version (lists_of rows.now) }
    ensures { IfOk result (λ made. (m : Machine) →
        IsValid m → AreRowsOf version m (lists_of rows.now) →
        IsRunning (none_failed m) made.0 × (made.1.items ≡ history_rows (none_failed m))) }
{
    sound_rows_lead();
    let told = Told::read(alloc, rows)?;
    let places = places(alloc, &told)?;
    let (running, history) = replay_sound(alloc, &InTime { rows, places })?;
    let mut running = running;
    running.settle_to(told.clock)?;
    Ok((running, history))
}

// Entries that are all accepted.
fn replay_sound(alloc: Global, source: &InTime) -> Result<(Running, Vec<HistoryRow>), AllocError>
    requires { (entries : List Entry)
        × AreEntriesIn (lists_of source.now.rows.now) source.now.places.items entries
        × AreNext new_machine entries }
    ensures { IfOk result
        (λ made. (entries : List Entry) →
        AreEntriesIn (lists_of source.now.rows.now) source.now.places.items entries →
        IsRunning (machine_of entries) made.0
        × (made.1.items ≡ history_rows (machine_of entries))) }
{
    let mut history = Vec::new(alloc);
    match replay_from(alloc, source, &mut history) {
        Ok(running) => Ok((running, history)),
        Err(ReplayFault::Refused(_)) => unreachable!(),
        Err(ReplayFault::Memory) => Err(AllocError),
    }
}
