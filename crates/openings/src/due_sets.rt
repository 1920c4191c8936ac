//! The due times that are kept in memory, made of a file's rows.

ghost use Rattle.std.specs.Prelude.{All, IfOk, OnOk};
ghost use Rattle.std.specs.BTreeSet.{IsSubset};
ghost use Rattle.stored_ledgers.specs.DueSets.{due_cmp};
ghost use Rattle.openings.specs.Opened.{AreKept, CoversCells};

use records::{PendingState, Unavailable};
use rows::{AllRows, DirectoryRow, StatusCells, TenantOfDigest};
use std::alloc::Global;
use std::collections::{BTreeMap, BTreeSet};
use stored_ledgers::batches::DueSets;

/// For each tenant's number the due times and ids of its open pending transfers.
pub(crate) fn due_sets(alloc: Global, all: &AllRows) -> Result<DueSets, Unavailable>
    ensures { IfOk result (λ sets. AreKept sets all.now.directory.items all.now.tenants.items) }
{
    let directory = all.directory.as_slice();
    let tenants = all.tenants.as_slice();
    sets_of(alloc, directory, tenants)
}

fn sets_of(
    alloc: Global,
    directory: &[DirectoryRow],
    tenants: &[TenantOfDigest],
) -> Result<DueSets, Unavailable>
    ensures { IfOk result (λ sets. AreKept sets directory.now tenants.now) }
{
    let mut sets = BTreeMap::new(alloc);
    for (row, tenant) in directory.iter().zip(tenants) {
        let set = due_set(alloc, &tenant.rows.statuses)?;
        sets.insert(row.number, set)?;
    }
    Ok(sets)
}

/// The due times, in nanoseconds, and ids of one tenant's open pending transfers.
pub(crate) fn due_set(
    alloc: Global,
    statuses: &[StatusCells],
) -> Result<BTreeSet<(u64, u128)>, Unavailable>
    ensures { IfOk result (λ set. All (CoversCells set) statuses.now) }
{
    let mut set = BTreeSet::new(alloc);
    for cells in statuses {
        keep_due(&mut set, cells)?;
    }
    Ok(set)
}

/// Keeps when the pending transfer is due, if it is open and ever is.
fn keep_due(set: &mut BTreeSet<(u64, u128)>, cells: &StatusCells) -> Result<(), Unavailable>
    ensures kept { OnOk result (CoversCells set.new cells.now) }
    ensures grows { OnOk result (IsSubset due_cmp set.old set.new) }
{
    let Some(row) = cells.to_row() else {
        return Ok(());
    };
    if let Some(due) = row.due
        && row.state == PendingState::Open
    {
        set.insert((due, row.transfer))?;
    }
    Ok(())
}
