//! Timestamps that are 0, or that stand twice.

ghost use Rattle.std.specs.Prelude.{◌≡◌, ◌==◌, ℕ, List, ◌++◌, count_by, unwrap_or, IfOk};
ghost use Rattle.std.specs.Bool.{Decides};
ghost use Rattle.std.specs.BTreeMap as tree;
ghost use Rattle.std.specs.Ordering.{nat_cmp};
ghost use Rattle.rows.specs.TypedRows.{TypedRows};
ghost use Rattle.audit.specs.Order.{IsBadRow, IsFirstPlace};
ghost use Rattle.audit.specs.Held.{Holds};
ghost use Rattle.audit.specs.Table.{IsOwnTime, IsBadTime};

use crate::shape::first;
use crate::told::Told;
use std::alloc::{AllocError, Global};
use std::collections::BTreeMap;

/// The first place at which a timestamp is bad.
pub(crate) fn first_bad_time(alloc: Global, told: &Told) -> Result<Option<usize>, AllocError>
    ensures { IfOk result
        (λ first. (typed : TypedRows) →
        Holds told.now typed → IsFirstPlace (IsBadTime typed) first) }
{
    let all = both(alloc, &told.account_times, &told.transfer_times)?;
    let account = first_shared(alloc, &told.account_times, &told.account_times)?;
    let transfer = first_shared(alloc, &told.transfer_times, &all)?;
    Ok(first(account, transfer))
}

fn both(alloc: Global, a: &[u64], b: &[u64]) -> Result<Vec<u64>, AllocError>
    ensures { IfOk result (λ times. times.items ≡ a.now ++ b.now) }
{
    let mut all = a.to_vec(alloc)?;
    all.extend_from_slice(b)?;
    Ok(all)
}

// The first of the times that is 0, or stands more than once among these.
fn first_shared(alloc: Global, times: &[u64], among: &[u64]) -> Result<Option<usize>, AllocError>
    ensures { IfOk result (IsFirstPlace (IsBadRow (IsOwnTime among.now) times.now)) }
{
    let counts = counts(alloc, among)?;
    for (place, time) in times.iter().enumerate() {
        if !is_own(&counts, *time) {
            return Ok(Some(place));
        }
    }
    Ok(None)
}

// How often each time stands there.
fn counts(alloc: Global, times: &[u64]) -> Result<BTreeMap<u64, usize>, AllocError>
    ensures { IfOk result (λ counts. (time : ℕ) →
        unwrap_or (tree.get nat_cmp counts time) 0 ≡ count_by (λ x. x == time) times.now) }
{
    let mut counts = BTreeMap::new(alloc);
    for time in times {
        *counts.entry(*time)?.or_insert(0) += 1;
    }
    Ok(counts)
}

// Whether a time is above 0, and stands once among those that are counted.
fn is_own(counts: &BTreeMap<u64, usize>, time: u64) -> bool
    ensures { (among : List ℕ) →
        ((t : ℕ) → unwrap_or (tree.get nat_cmp counts.now t) 0 ≡ count_by (λ x. x == t) among) →
        Decides result (IsOwnTime among time) }
{
    0 < time && counts.get(&time).copied().unwrap_or(0) <= 1
}
