//! Decisions at the timestamp 6, and what the tests ask of them.

use amount::Amount;
use engine::{Decision, decide_transfer};
use records::{Balances, TransferEvent, TransferFacts, TransferResult};

/// The amount that is stored, and both accounts' balances after it; or the result.
pub(super) type Told = Result<(Amount, Balances, Balances), TransferResult>;

pub(super) fn decide(facts: &TransferFacts, ev: &TransferEvent) -> Decision {
    decide_transfer(facts, ev, 6, 6)
}

pub(super) fn told(facts: &TransferFacts, ev: &TransferEvent) -> Told {
    match decide(facts, ev) {
        Decision::Refuse(result) => Err(result),
        Decision::Accept(a) => Ok((a.stored.amount, a.debit_after, a.credit_after)),
    }
}

pub(super) fn refusal(facts: &TransferFacts, ev: &TransferEvent) -> Option<TransferResult> {
    told(facts, ev).err()
}
