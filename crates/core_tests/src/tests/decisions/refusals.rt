use super::deciding::refusal;
use super::facts::{between, between_new_accounts, facts_of_pending, found};
use crate::tests::asserting::same;
use records::{PendingState, TransferEvent, TransferFacts, TransferResult};
use samples::{KEEPS_HISTORY, LIMITS_CREDITS, LIMITS_DEBITS, PENDING, POST, post, transfer, with};

// The first of the reserved bits.
const RESERVED: u16 = 64;

#[test]
fn refuses_by_the_event_and_its_accounts(rt: HostRuntime) {
    let nowhere = between(None, None);
    let reserved = refusal(&nowhere, &with(RESERVED, transfer(0, (0, 0), 0)));
    let want = TransferResult::ReservedFlag;
    same(&rt, "a reserved flag", reserved, Some(want));

    let unknown = refusal(&nowhere, &transfer(100, (1, 9), 1));
    let want = TransferResult::DebitAccountNotFound;
    same(&rt, "no account", unknown, Some(want));

    let open = facts_of_pending(5, 0, PendingState::Open);
    let of_other_account = TransferEvent {
        debit_account_id: 2,
        ..post(101, 100, 5)
    };
    let other = refusal(&open, &of_other_account);
    let want = TransferResult::PendingTransferHasDifferentDebitAccountId;
    same(&rt, "another account", other, Some(want));
}

// Of an id that failed for good only the results 3 to 18 come before 60.
#[test]
fn keeps_failed_ids(rt: HostRuntime) {
    for (case, failed, flags, want) in [
        ("failed", true, 0, TransferResult::IdAlreadyFailed),
        (
            "a reserved flag",
            true,
            RESERVED,
            TransferResult::ReservedFlag,
        ),
        (
            "exclusive flags",
            true,
            PENDING + POST,
            TransferResult::IdAlreadyFailed,
        ),
        (
            "unused",
            false,
            PENDING + POST,
            TransferResult::FlagsAreMutuallyExclusive,
        ),
    ] {
        let facts = TransferFacts {
            failed,
            ..between_new_accounts()
        };
        let told = refusal(&facts, &with(flags, transfer(104, (1, 2), 1)));
        same(&rt, case, told, Some(want));
    }
}

#[test]
fn keeps_sums(rt: HostRuntime) {
    let max = u128::MAX;
    for (case, debit, credit, flags, want) in [
        (
            "debits posted",
            [0, max, 0, 0],
            [0, 0, 0, max],
            0,
            TransferResult::OverflowsDebitsPosted,
        ),
        (
            "debits pending",
            [max, 0, 0, 0],
            [0, 0, max, 0],
            PENDING,
            TransferResult::OverflowsDebitsPending,
        ),
        (
            "debits",
            [max, 0, 0, 0],
            [0, 0, max, 0],
            0,
            TransferResult::OverflowsDebits,
        ),
        (
            "credits pending",
            [0, 0, 0, 0],
            [0, 0, max, 0],
            PENDING,
            TransferResult::OverflowsCreditsPending,
        ),
        (
            "credits",
            [0, 0, 0, 0],
            [0, 0, max, 0],
            0,
            TransferResult::OverflowsCredits,
        ),
    ] {
        let facts = between(found(1, 0, debit), found(2, 0, credit));
        let told = refusal(&facts, &with(flags, transfer(101, (1, 2), 1)));
        same(&rt, case, told, Some(want));
    }
}

#[test]
fn keeps_limits(rt: HostRuntime) {
    // Of account 3 also the history is kept.
    let flags = LIMITS_DEBITS + KEEPS_HISTORY;
    let limited = between(found(3, flags, [50, 0, 0, 50]), found(2, 0, [0, 0, 50, 0]));
    let debits = refusal(&limited, &transfer(102, (3, 2), 1));
    same(&rt, "debits", debits, Some(TransferResult::ExceedsCredits));

    let last = found(5, LIMITS_CREDITS, [0, 30, 30, 0]);
    let limited = between(found(1, 0, [0, 0, 30, 30]), last);
    let credits = refusal(&limited, &transfer(103, (1, 5), 1));
    same(&rt, "credits", credits, Some(TransferResult::ExceedsDebits));
}
