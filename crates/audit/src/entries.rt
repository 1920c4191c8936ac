//! Where a tenant's entries stand, in order of time.

ghost use Rattle.std.specs.Prelude.{◌≡◌, ℕ, ◌++◌, IfOk, IsPermutation};
ghost use Rattle.std.specs.Ordering.{nat_cmp};
ghost use Rattle.std.specs.List.Sorted.{IsSortedByKey};
ghost use Rattle.rows.specs.TypedRows.{TypedRows};
ghost use Rattle.audit.specs.declared.entries.RowPlace.TheVariants.{Account, Transfer};
ghost use Rattle.audit.specs.Held.{Holds, ArePlacesOf, places_of};
ghost use Rattle.audit.specs.Told.{entries_told};
ghost use Rattle.audit.specs.Table.{IsBadTime};

use crate::told::Told;
use rows::read_in_order;
use running::Entry;
use std::alloc::{AllocError, Global};

/// The place of an entry's row in its table.
#[derive(Clone, Copy, Debug, PartialEq, Eq)]
pub(crate) enum RowPlace {
    Account(usize),
    Transfer(usize),
}

/// An entry's timestamp, and where it stands.
#[derive(Clone, Copy, Debug, PartialEq, Eq)]
pub(crate) struct EntryPlace {
    // In nanoseconds.
    pub(crate) time: u64,
    pub(crate) row: RowPlace,
}

/// The places of all entries, which have timestamps of their own, in order of time.
pub(crate) fn places(alloc: Global, told: &Told) -> Result<Vec<EntryPlace>, AllocError>
    ensures { IfOk result
        (λ places. (typed : TypedRows) →
        Holds told.now typed → ((place : ℕ) → IsBadTime typed place → ⊥) →
        ArePlacesOf typed (entries_told typed) places.items) }
{
    read_in_order::<Entry>();
    let mut places = as_stored(alloc, told)?;
    sort(&mut places);
    Ok(places)
}

// Those of the accounts, and then of the transfers.
fn as_stored(alloc: Global, told: &Told) -> Result<Vec<EntryPlace>, AllocError>
    ensures { IfOk result
        (λ places. places.items ≡ places_of Account told.now.account_times.items
        ++ places_of Transfer told.now.transfer_times.items) }
{
    let account_times = told.account_times.iter().copied().enumerate();
    let transfer_times = told.transfer_times.iter().copied().enumerate();
    account_times
        .map(|(place, time)| EntryPlace {
            time,
            row: RowPlace::Account(place),
        })
        .chain(transfer_times.map(|(place, time)| EntryPlace {
            time,
            row: RowPlace::Transfer(place),
        }))
        .collect(alloc)
}

fn sort(places: &mut [EntryPlace])
    ensures same { IsPermutation places.old places.new }
    ensures sorted { IsSortedByKey (λ place. place.time) nat_cmp places.new }
{
    places.sort_unstable_by_key(|place| place.time);
}
