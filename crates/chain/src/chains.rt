ghost use Rattle.std.specs.Prelude.{◌≡◌, ◌∷◌, ◌<◌, ◌≤◌, ◌+◌, ◌^◌, ◌++◌, length, drop, not};
ghost use Rattle.std.specs.Prelude.{position, slice_index_or, IfSome, vec_len, vec_capacity};
ghost use Rattle.records.specs.Chains.{chains_of, chain_size};
ghost use Rattle.records.specs.Step.{with_timestamps};
ghost use Rattle.chain.specs.Chains.{chain_of, results_from};

use crate::events::BatchEvent;
use records::{EventResult, Refusal};

/// Events that are tied together, cut from their batch.
#[derive_where(Clone, Copy)]
pub(crate) struct CutChain<'a, E> {
    /// The events to judge: of an open chain the last event is not.
    pub judged: &'a [E],
    /// Whether the batch ends before the chain does.
    pub is_open: bool,
}

impl<E> CutChain<'_, E> {
    /// How many places of the batch it takes.
    pub fn size(&self) -> usize
        requires { length self.now.judged.now < 2 ^ 63 }
        ensures { result ≡ chain_size (chain_of self.now) }
    {
        self.judged.len() + usize::from(self.is_open)
    }
}

/// The place of the first event that is not linked.
fn first_unlinked<E: BatchEvent>(batch: &[E]) -> Option<usize>
    ensures { result ≡ position (λ event. not (E.rules.linked event)) batch.now }
{
    batch.iter().position(|event| !event.is_linked())
}

/// The first chain of a batch that has events.
pub(crate) fn first_chain<E: BatchEvent>(batch: &[E]) -> CutChain<'_, E>
    requires { 0 < length batch.now }
    ensures first { chains_of E.rules.linked batch.now
        ≡ chain_of result
        ∷ chains_of E.rules.linked (drop (chain_size (chain_of result)) batch.now) }
    ensures some { 0 < chain_size (chain_of result) }
    ensures within { chain_size (chain_of result) ≤ length batch.now }
{
    match first_unlinked(batch) {
        Some(last) => CutChain {
            judged: &batch[..last + 1],
            is_open: false,
        },
        None => CutChain {
            judged: &batch[..batch.len() - 1],
            is_open: true,
        },
    }
}

/// Adds the results of a chain, by the first refusal of the chain, the first one at this timestamp.
pub(crate) fn push_results<E: BatchEvent>(
    results: &mut Vec<EventResult<E::Result>>,
    chain: &CutChain<'_, E>,
    refusal: Option<Refusal<E::Result>>,
    first: u64,
)
    requires within { IfSome refusal (λ refusal. refusal.place < length chain.now.judged.now) }
    requires room { vec_len results.old + chain_size (chain_of chain.now)
        ≤ vec_capacity results.old }
    requires fits { first + chain_size (chain_of chain.now) < 2 ^ 63 }
    ensures items { results.new.items
        ≡ results.old.items ++
        with_timestamps first (results_from E.rules (chain_of chain.now) refusal) }
    ensures len { vec_len results.new ≡ vec_len results.old + chain_size (chain_of chain.now) }
    ensures capacity { vec_capacity results.new ≡ vec_capacity results.old }
{
    for place in 0..chain.size() {
        let result = result_at(chain, refusal, place);
        results.push_reserved(EventResult {
            result,
            timestamp: first + place as u64,
        });
    }
}

/// The result of the event at this place of a chain, by the first refusal of the chain.
fn result_at<E: BatchEvent>(
    chain: &CutChain<'_, E>,
    refusal: Option<Refusal<E::Result>>,
    place: usize,
) -> E::Result
    requires within { IfSome refusal (λ refusal. refusal.place < length chain.now.judged.now) }
    requires place { place < chain_size (chain_of chain.now) }
    ensures { result
        ≡ slice_index_or (results_from E.rules (chain_of chain.now) refusal) place result }
{
    if place == chain.judged.len() {
        return E::chain_open();
    }
    match refusal {
        Some(refusal) if refusal.place == place => refusal.result,
        None if !chain.is_open => E::accepted(),
        _ => E::chain_failed(),
    }
}
