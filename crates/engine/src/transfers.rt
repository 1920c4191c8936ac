ghost use Rattle.std.specs.Prelude.{◌≡◌, ◌+◌, ◌<◌, ◌≤◌};
ghost use Rattle.records.specs.declared.side.Side.TheVariants.{Debit, Credit};
ghost use Rattle.records.specs.Machine.{Machine};
ghost use Rattle.records.specs.Facts.{facts_of};
ghost use Rattle.records.specs.Valid.{IsValid, IsNextTimestamp};
ghost use Rattle.records.specs.Accepted.{IsAccepted};
ghost use Rattle.records.specs.Step.{max_clock};
ghost use Rattle.records.specs.Widths.{IsTransferInWidth};
ghost use Rattle.engine.specs.Decision.{IsDecision, IfAccepted, IsAfter};

use crate::Decision;
use crate::accept::accept;
use crate::refusals::transfer_verdict;
use records::{TransferEvent, TransferFacts};

/// The decision on a transfer event that meets these facts. The transfer is accepted at the
/// timestamp, and `at` is the clock of its batch, both in nanoseconds.
pub fn decide_transfer(
    facts: &TransferFacts,
    ev: &TransferEvent,
    timestamp: u64,
    at: u64,
) -> Decision
    requires by_clock { timestamp ≤ at }
    requires in_batch { at < timestamp + 1000 }
    requires bounded { at ≤ max_clock }
    ensures decision { IsDecision facts.now ev.now timestamp at result }
    ensures debit { IfAccepted result (IsAfter Debit facts.now) }
    ensures credit { IfAccepted result (IsAfter Credit facts.now) }
    ensures widths { IfAccepted result (λ a. IsTransferInWidth a.stored) }

    // In a valid machine the record is its next entry, and the balances are those with it.
    ensures next { (m : Machine) →
        IsValid m → facts.now ≡ facts_of m ev.now → at ≡ m.clock → IsNextTimestamp m timestamp →
        IfAccepted result (IsAccepted m) }
{
    match transfer_verdict(facts, ev) {
        Some(result) => Decision::Refuse(result),
        None => Decision::Accept(accept(facts, ev, timestamp, at)),
    }
}
