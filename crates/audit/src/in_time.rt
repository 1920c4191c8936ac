//! The entries of a tenant in order of time, each read from its row as it is asked for.

ghost use Rattle.std.specs.Prelude.{◌≡◌, ◌<◌, List, length, Some, IsSome, slice_get};
ghost use Rattle.rows.specs.TypedRows.{TypedRows, lists_of};
ghost use Rattle.running.specs.declared.entry.Entry.{Entry};
ghost use Rattle.audit.specs.Held.{AreEntriesIn, entry_at};
ghost use Rattle.audit.specs.Told.{TellsRows};

use crate::cells::value_at;
use crate::entries::{EntryPlace, RowPlace};
use rows::TenantRows;
use running::{Entry, EntrySource};

/// A tenant's rows, and where their entries stand.
#[derive(Debug, Drop)]
pub(crate) struct InTime<'a> {
    pub(crate) rows: &'a TenantRows,
    pub(crate) places: Vec<EntryPlace>,
}

impl EntrySource for InTime<'_> {
    ghost use Rattle.rows.specs.TypedRows.{lists_of};
    ghost use Rattle.audit.specs.Held.{AreEntriesIn};

    ghost has = { λ source entries.
        AreEntriesIn (lists_of source.rows.now) source.places.items entries };

    fn len(&self) -> usize {
        self.places.len()
    }

    fn entry(&self, place: usize) -> Entry {
        entry_in_time(self.rows, &self.places, place)
    }
}

// The entry at a place in order of time.
fn entry_in_time(rows: &TenantRows, places: &[EntryPlace], place: usize) -> Entry
    requires there { (entries : List Entry) × AreEntriesIn (lists_of rows.now) places.now entries }
    requires within { place < length places.now }
    ensures { (entries : List Entry) →
        AreEntriesIn (lists_of rows.now) places.now entries →
        slice_get entries place ≡ Some result }
{
    let found = places[place];
    entry_in(rows, found.row)
}

// The entry that stands there.
fn entry_in(rows: &TenantRows, row: RowPlace) -> Entry
    requires { (typed : TypedRows)
        × TellsRows (lists_of rows.now) typed × IsSome (entry_at typed row) }
    ensures { (typed : TypedRows) →
        TellsRows (lists_of rows.now) typed → IsSome (entry_at typed row) →
        entry_at typed row ≡ Some result }
{
    match row {
        RowPlace::Account(place) => Entry::Opened(value_at(&rows.accounts, place)),
        RowPlace::Transfer(place) => Entry::Moved(value_at(&rows.transfers, place)),
    }
}
