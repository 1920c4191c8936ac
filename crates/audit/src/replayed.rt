//! The entries of a tenant, replayed.

ghost use Rattle.std.specs.Prelude.{◌≡◌, ℕ, Some, IfOk};
ghost use Rattle.records.specs.Machine.{new_machine};
ghost use Rattle.rows.specs.Prescribed.{history_rows};
ghost use Rattle.rows.specs.TypedRows.{TypedRows, lists_of};
ghost use Rattle.running.specs.Entries.{IsFirstRefused, machine_of};
ghost use Rattle.running.specs.History.{IsToldMore};
ghost use Rattle.audit.specs.Order.{IsFirstPlace};
ghost use Rattle.audit.specs.Held.{Holds, ArePlacesOf};
ghost use Rattle.audit.specs.Told.{TellsRows, entries_told};
ghost use Rattle.audit.specs.Table.{IsBadTime, IsRowOf, IsRefusedRow};
ghost use Rattle.audit.specs.Replayed.{IfAllAccepted, IsReplayed};

use crate::cells::first_same;
use crate::entries::places;
use crate::in_time::InTime;
use crate::told::Told;
use rows::{HistoryRow, TenantRows};
use running::{Entry, EntrySource, HistoryTaker, ReplayFault, Running, replay_from};
use std::alloc::{AllocError, Global};

/// What a replay comes to.
#[derive(Debug, Drop)]
pub(crate) enum Replayed {
    // Every entry is accepted.
    Accepted(Running),
    // The place of the first that is not, in its table.
    Refused(usize),
}

/// The entries in order of time, replayed from nothing. Their history is told to the taker.
pub(crate) fn replay_told<H: HistoryTaker>(
    alloc: Global,
    rows: &TenantRows,
    told: &Told,
    history: &mut H,
) -> Result<Replayed, AllocError>
    requires { (typed : TypedRows)
        × TellsRows (lists_of rows.now) typed
        × Holds told.now typed
        × ((place : ℕ) → IsBadTime typed place → ⊥) }
    ensures replayed { IfOk result
        (λ replayed. (typed : TypedRows) →
        TellsRows (lists_of rows.now) typed → Holds told.now typed →
        ((place : ℕ) → IsBadTime typed place → ⊥) → IsReplayed typed replayed) }
    ensures told { IfOk result
        (λ replayed. (typed : TypedRows) →
        TellsRows (lists_of rows.now) typed → Holds told.now typed →
        ((place : ℕ) → IsBadTime typed place → ⊥) →
        IfAllAccepted replayed
        (IsToldMore H.told history.old history.new new_machine (machine_of (entries_told typed)))) }
{
    let places = places(alloc, told)?;
    let source = InTime { rows, places };
    match replay_from(alloc, &source, history) {
        Ok(running) => Ok(Replayed::Accepted(running)),
        Err(ReplayFault::Refused(n)) => Ok(Replayed::Refused(refused_place(&source, n))),
        Err(ReplayFault::Memory) => Err(AllocError),
    }
}

/// The history of a tenant's entries, which are all accepted, in order of entry.
pub(crate) fn history_told(
    alloc: Global,
    rows: &TenantRows,
    told: &Told,
) -> Result<Vec<HistoryRow>, AllocError>
    requires { (typed : TypedRows)
        × TellsRows (lists_of rows.now) typed
        × Holds told.now typed
        × ((place : ℕ) → IsBadTime typed place → ⊥)
        × ((place : ℕ) → IsRefusedRow typed place → ⊥) }
    ensures { IfOk result
        (λ list. (typed : TypedRows) →
        TellsRows (lists_of rows.now) typed → Holds told.now typed →
        ((place : ℕ) → IsBadTime typed place → ⊥) →
        list.items ≡ history_rows (machine_of (entries_told typed))) }
{
    let mut history = Vec::new(alloc);
    match replay_told(alloc, rows, told, &mut history)? {
        Replayed::Accepted(_) => Ok(history),
        Replayed::Refused(_) => unreachable!(),
    }
}

fn refused_place(source: &InTime, n: usize) -> usize
    requires { (typed : TypedRows)
        × TellsRows (lists_of source.now.rows.now) typed
        × ArePlacesOf typed (entries_told typed) source.now.places.items
        × IsFirstRefused new_machine (entries_told typed) n }
    ensures { (typed : TypedRows) →
        TellsRows (lists_of source.now.rows.now) typed →
        ArePlacesOf typed (entries_told typed) source.now.places.items →
        IsFirstRefused new_machine (entries_told typed) n →
        IsFirstPlace (IsRefusedRow typed) (Some result) }
{
    place_of(source.rows, &source.entry(n)).unwrap()
}

// The place of an entry in its table.
fn place_of(rows: &TenantRows, entry: &Entry) -> Option<usize>
    requires { (typed : TypedRows) × TellsRows (lists_of rows.now) typed }
    ensures { (typed : TypedRows) →
        TellsRows (lists_of rows.now) typed →
        IsFirstPlace (λ place. IsRowOf typed place entry.now) result }
{
    match entry {
        Entry::Opened(account) => first_same(&rows.accounts, account),
        Entry::Moved(transfer) => first_same(&rows.transfers, transfer),
    }
}
