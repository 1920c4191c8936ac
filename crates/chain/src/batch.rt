ghost use Rattle.std.specs.Prelude.{◌≡◌, ◌<◌, ◌≤◌, ◌+◌, ◌++◌, ◌&&◌, not, is_none, length, max};
ghost use Rattle.std.specs.Prelude.{None, MatchOption, IfOk, IfSome, IsSome, OnOk, vec_len};
ghost use Rattle.std.specs.Prelude.{vec_capacity};
ghost use Rattle.records.specs.Chains.{chains_of, chains_results, trial_of, chain_size};
ghost use Rattle.records.specs.Chains.{after_fallen, after_chains};
ghost use Rattle.records.specs.Step.{max_clock, with_timestamps, step_outcome, step_machine};
ghost use Rattle.records.specs.Step.{IsReply};
ghost use Rattle.chain.specs.Tables.{IsFresh, Tells, Leaves, LeavesRun, on_now, closing};
ghost use Rattle.chain.specs.InBatch.{IsInBatch, IsBetweenChains, IsInTime};
ghost use Rattle.chain.specs.Chains.{chain_of, after_try, id_failed_by};
ghost use Rattle.chain.specs.EventLaws.{IsUnused};

use crate::Tables;
use crate::chains::{CutChain, first_chain, push_results};
use crate::events::BatchEvent;
use records::{BatchReply, EventResult, MAX_CLOCK, Refusal, Unavailable};
use std::alloc::Global;

/// Runs a batch of events of a kind at a moment, in nanoseconds: the clock goes to the moment,
/// unless it is there already, and advances one nanosecond per event. All memory for the reply is
/// taken before the first change.
///
/// After `Unavailable` the batch is over: all is as at its beginning, or as before this call.
pub fn run_batch<E: BatchEvent, T: Tables>(
    alloc: Global,
    tables: &mut T,
    batch: &[E],
    moment: u64,
) -> Result<BatchReply<E::Result>, Unavailable>
    requires usable { T.means.is_usable tables.old }
    requires fresh { T.means.is_live tables.old → IsFresh (T.means.state tables.old) }
    requires short { length batch.now ≤ 1000 }
    ensures reply { T.means.is_live tables.new →
        IfOk result
        (λ reply. IsReply reply
        (step_outcome E.rules (T.means.state tables.old).now batch.now moment)) }
    ensures leaves { LeavesRun T.means tables.old tables.new result
        (on_now (λ m. step_machine E.rules m batch.now moment)) }
{
    let events = batch.len() as u64;
    let clock = tables.clock()?;
    let Some(clock) = next_clock(clock, events, moment) else {
        return Ok(BatchReply::ClockExhausted);
    };
    let mut results = Vec::with_capacity(alloc, batch.len())?;
    tables.settle(clock)?;
    run_chains(tables, &mut results, batch, clock - events + 1, clock)?;
    Ok(BatchReply::Done { clock, results })
}

/// The clock after a batch of so many events at a moment, unless it passes the latest one.
fn next_clock(clock: u64, events: u64, moment: u64) -> Option<u64>
    requires { events ≤ 1000 }
    ensures { MatchOption result (max_clock < max moment clock + events)
        (λ next. (next ≡ max moment clock + events) × (next ≤ max_clock)) }
{
    let start = moment.max(clock);
    if start > MAX_CLOCK - events {
        None
    } else {
        Some(start + events)
    }
}

/// Runs the chains of a batch in turn and adds their results, the first one at this timestamp. Of
/// each it keeps the id of its first event that fails, where it fails for good.
fn run_chains<E: BatchEvent, T: Tables>(
    tables: &mut T,
    results: &mut Vec<EventResult<E::Result>>,
    batch: &[E],
    first: u64,
    clock: u64,
) -> Result<(), Unavailable>
    requires usable { T.means.is_usable tables.old }
    requires between { T.means.is_live tables.old →
        IsBetweenChains (T.means.state tables.old) clock first }
    requires in_time { IsInTime clock first (length batch.now) }
    requires room { vec_len results.old + length batch.now ≤ vec_capacity results.old }
    ensures results { T.means.is_live tables.new →
        OnOk result (results.new.items
        ≡ results.old.items ++
        with_timestamps first (chains_results E.rules (T.means.state tables.old).now
        (chains_of E.rules.linked batch.now) first)) }
    ensures leaves { Leaves T.means tables.old tables.new result
        (on_now (λ m. after_chains E.rules m (chains_of E.rules.linked batch.now) first)) }
{
    let mut start = 0;
    while start < batch.len() {
        let chain = first_chain(&batch[start..]);
        let timestamp = first + start as u64;
        let refusal = try_chain(tables, &chain, timestamp, clock)?;
        record_failed(tables, refusal)?;
        push_results(results, &chain, refusal, timestamp);
        start += chain.size();
    }
    Ok(())
}

/// Tries a chain, and goes back unless it is closed and all its events are accepted: the first
/// refusal.
fn try_chain<E: BatchEvent, T: Tables>(
    tables: &mut T,
    chain: &CutChain<'_, E>,
    first: u64,
    clock: u64,
) -> Result<Option<Refusal<E::Result>>, Unavailable>
    requires usable { T.means.is_usable tables.old }
    requires between { T.means.is_live tables.old →
        IsBetweenChains (T.means.state tables.old) clock first }
    requires in_time { IsInTime clock first (chain_size (chain_of chain.now)) }
    ensures refusal { Tells T.means tables.old tables.new result
        (λ m. (trial_of E.rules m chain.now.judged.now first).refusal) }
    ensures within { IfOk result
        (λ refusal. IfSome refusal (λ r. r.place < length chain.now.judged.now)) }
    ensures leaves { Leaves T.means tables.old tables.new result
        (on_now (λ m. after_try E.rules m (chain_of chain.now) first)) }
{
    if chain.size() == 1 {
        return run_events(tables, chain.judged, first, clock);
    }
    tables.mark()?;
    let refusal = run_events(tables, chain.judged, first, clock)?;
    close_mark(tables, stands(chain, &refusal))?;
    Ok(refusal)
}

/// Runs events in turn, up to the first that fails.
fn run_events<E: BatchEvent, T: Tables>(
    tables: &mut T,
    events: &[E],
    first: u64,
    clock: u64,
) -> Result<Option<Refusal<E::Result>>, Unavailable>
    requires usable { T.means.is_usable tables.old }
    requires in_batch { T.means.is_live tables.old →
        IsInBatch (T.means.state tables.old).now clock first }
    requires in_time { IsInTime clock first (length events.now) }
    ensures refusal { Tells T.means tables.old tables.new result
        (λ m. (trial_of E.rules m events.now first).refusal) }
    ensures within { IfOk result (λ refusal. IfSome refusal (λ r. r.place < length events.now)) }
    ensures leaves { Leaves T.means tables.old tables.new result
        (on_now (λ m. (trial_of E.rules m events.now first).machine)) }
{
    for (place, event) in events.iter().enumerate() {
        if let Some(result) = event.run_one(tables, first + place as u64, clock)? {
            return Ok(Some(Refusal {
                place,
                result,
                failed_id: event.failed_id(result),
            }));
        }
    }
    Ok(None)
}

/// Whether a chain stands: it is closed, and none of its events is refused.
fn stands<E: BatchEvent>(chain: &CutChain<'_, E>, refusal: &Option<Refusal<E::Result>>) -> bool
    ensures { result ≡ not chain.now.is_open && is_none refusal.now }
{
    !chain.is_open && refusal.is_none()
}

/// Closes the mark, and goes back to it unless what has come since is kept.
fn close_mark<T: Tables>(tables: &mut T, keeps: bool) -> Result<(), Unavailable>
    requires usable { T.means.is_usable tables.old }
    requires marked { T.means.is_live tables.old → IsSome (T.means.state tables.old).marked }
    ensures { Leaves T.means tables.old tables.new result (closing keeps) }
{
    if keeps {
        tables.release_mark()
    } else {
        tables.back_to_mark()
    }
}

/// Keeps the id of the event that was refused, where it fails for good.
fn record_failed<R: Copy, T: Tables>(
    tables: &mut T,
    refusal: Option<Refusal<R>>,
) -> Result<(), Unavailable>
    requires usable { T.means.is_usable tables.old }
    requires unmarked { T.means.is_live tables.old → (T.means.state tables.old).marked ≡ None }
    requires unused { T.means.is_live tables.old →
        IfSome (id_failed_by refusal) (IsUnused (T.means.state tables.old).now) }
    ensures { Leaves T.means tables.old tables.new result (on_now (λ m. after_fallen m refusal)) }
{
    match refusal.and_then(|refusal| refusal.failed_id) {
        Some(id) => tables.record_failed(id),
        None => Ok(()),
    }
}
