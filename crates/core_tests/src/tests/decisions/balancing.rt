use super::deciding::told;
use super::facts::{between, found};
use crate::tests::asserting::same;
use amount::Amount;
use samples::{BALANCING_CREDIT, BALANCING_DEBIT, transfer, with};

#[test]
fn balances_what_is_left(rt: HostRuntime) {
    let both = BALANCING_DEBIT + BALANCING_CREDIT;
    for (case, debit, credit, flags, want) in [
        (
            "what may still be debited",
            [0, 20, 0, 50],
            [0, 0, 0, 20],
            BALANCING_DEBIT,
            30,
        ),
        (
            "nothing to debit",
            [0, 0, 0, 0],
            [0, 0, 0, 0],
            BALANCING_DEBIT,
            0,
        ),
        ("the lesser of both", [0, 0, 0, 30], [0, 50, 0, 0], both, 30),
        (
            "the credit side",
            [0, 30, 0, 30],
            [0, 50, 0, 30],
            BALANCING_CREDIT,
            20,
        ),
    ] {
        let facts = between(found(3, 0, debit), found(2, 0, credit));
        let left = told(&facts, &with(flags, transfer(102, (3, 2), u128::MAX)));
        same(&rt, case, left.map(|left| left.0), Ok(Amount::new(want)));
    }
}
