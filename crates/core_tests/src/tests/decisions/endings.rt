//! Pending transfers, and what ends them.

use super::deciding::{Told, decide, refusal, told};
use super::facts::{between_new_accounts, facts_of_pending, part_posted, pending, stored};
use crate::tests::asserting::same;
use amount::Amount;
use engine::{Decision, due, release};
use records::{Accepted, Ending, ExistingTransfer, PendingState, TransferResult};
use samples::{balances, post, transfer, void};

// What is left of an entry of 100 between two accounts with these debits and these credits.
fn hundred(debits: (u128, u128), credits: (u128, u128)) -> Told {
    let debit = balances(debits, (0, 0));
    let credit = balances((0, 0), credits);
    Ok((Amount::new(100), debit, credit))
}

#[test]
fn posts_a_part(rt: HostRuntime) {
    let held = told(&between_new_accounts(), &pending(100, 0));
    same(&rt, "held", held, hundred((100, 0), (100, 0)));

    let open = facts_of_pending(100, 0, PendingState::Open);
    let posted = Accepted {
        stored: part_posted(),
        debit_after: balances((0, 40), (0, 0)),
        credit_after: balances((0, 0), (0, 40)),
        ends: Some(Ending::Posted(100)),
    };
    let accepted = Decision::Accept(posted);
    same(&rt, "posted", decide(&open, &post(101, 100, 40)), accepted);

    let ended = facts_of_pending(100, 0, PendingState::Posted);
    let again = told(&ended, &post(102, 100, 60));
    let already_posted = Err(TransferResult::PendingTransferAlreadyPosted);
    same(&rt, "again", again, already_posted);
}

#[test]
fn knows_a_post_again(rt: HostRuntime) {
    let mut known = facts_of_pending(100, 0, PendingState::Posted);
    known.existing = Some(ExistingTransfer {
        transfer: part_posted(),
        pending_amount: Amount::new(100),
    });
    for (case, amount, want) in [
        ("as much", 40, TransferResult::Exists),
        ("more", 41, TransferResult::ExistsWithDifferentAmount),
    ] {
        let again = refusal(&known, &post(101, 100, amount));
        same(&rt, case, again, Some(want));
    }
}

#[test]
fn posts_until_it_is_due(rt: HostRuntime) {
    let all = post(101, 100, u128::MAX);
    let open = facts_of_pending(100, 1, PendingState::Open);
    same(&rt, "open", told(&open, &all), hundred((0, 100), (0, 100)));
    let expired = facts_of_pending(100, 1, PendingState::Expired);
    let late = Err(TransferResult::PendingTransferExpired);
    same(&rt, "late", told(&expired, &all), late);

    let pending_due = due(&stored(&pending(100, 1), 5));
    same(&rt, "due", pending_due, Some(1_000_000_005));
    let single_due = due(&stored(&transfer(100, (1, 2), 100), 5));
    same(&rt, "not due", single_due, None);
}

#[test]
fn voids_the_whole(rt: HostRuntime) {
    let open = facts_of_pending(100, 0, PendingState::Open);
    let other_amount = Err(TransferResult::PendingTransferHasDifferentAmount);
    same(
        &rt,
        "a part",
        told(&open, &void(101, 100, 99)),
        other_amount,
    );
    let voided = told(&open, &void(101, 100, 0));
    same(&rt, "the whole", voided, hundred((0, 0), (0, 0)));

    let debit = balances((100, 1), (2, 3));
    let credit = balances((1, 2), (100, 3));
    let after = release(debit, credit, Amount::new(100));
    let want = (balances((0, 1), (2, 3)), balances((1, 2), (0, 3)));
    same(&rt, "released", after, want);
}
