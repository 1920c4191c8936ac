//! The due times that are kept in memory beside the tables.

ghost use Rattle.std.specs.Prelude.{◌<◌, ◌≤◌, slice_get, All, OnOk, IfSome};
ghost use Rattle.std.specs.Bool.{OnTrue, OnFalse};
ghost use Rattle.std.specs.BTreeSet.{btree_set_len, contains, IsSubset};
ghost use Rattle.records.specs.Machine.{Machine};
ghost use Rattle.records.specs.Step.{max_clock};
ghost use Rattle.stored_tables.specs.Covers.{Covers, HasDue};

use engine::due;
use records::{Transfer, Unavailable};
use std::collections::BTreeSet;

/// Keeps when the transfer is due, if it ever is.
pub(crate) fn remember(
    due_times: &mut BTreeSet<(u64, u128)>,
    transfer: &Transfer,
) -> Result<(), Unavailable>
    requires { transfer.now.timestamp ≤ max_clock }
    ensures kept { OnOk result
        (HasDue (contains ⟦<(u64, u128) as Ord>⟧.cmp due_times.new) transfer.now) }
    ensures grows { IsSubset ⟦<(u64, u128) as Ord>⟧.cmp due_times.old due_times.new }
{
    if let Some(time) = due(transfer) {
        due_times.insert((time, transfer.id))?;
    }
    Ok(())
}

/// Drops what is due at the clock, in nanoseconds. A tenant whose clock is there or later has no
/// open transfer among it.
pub fn forget_past(due_times: &mut BTreeSet<(u64, u128)>, clock: u64)
    ensures covers { (m : Machine) →
        clock ≤ m.clock → Covers (contains ⟦<(u64, u128) as Ord>⟧.cmp due_times.old) m →
        Covers (contains ⟦<(u64, u128) as Ord>⟧.cmp due_times.new) m }
    ensures left { All (λ entry. clock < entry.0) due_times.new.keys }
{
    while begins_by(due_times, clock) {
        due_times.pop_first();
    }
}

/// Whether the earliest due time has come at the clock.
fn begins_by(due_times: &BTreeSet<(u64, u128)>, clock: u64) -> bool
    ensures past { OnTrue result
        (IfSome (slice_get due_times.now.keys 0) (λ entry. entry.0 ≤ clock)) }
    ensures some { OnTrue result (0 < btree_set_len due_times.now) }
    ensures none { OnFalse result (All (λ entry. clock < entry.0) due_times.now.keys) }
{
    match due_times.first() {
        Some(entry) => entry.0 <= clock,
        None => false,
    }
}
