//! The worked examples of single and of pending transfers, and what they leave.
use super::ledger::Ledger;
use super::played::Act::{Amounts, Balances, Failed, Open, Send};
use super::played::Sent::{New, Post, PostFrom, Timed, Void, With};
use super::played::{Example, MAX, base, play, play_all};
use records::TransferEvent;
use samples::{BALANCING_CREDIT, BALANCING_DEBIT, LIMITS_CREDITS, PENDING, post, transfer, with};
use std::alloc::{AllocError, Global};
use std::test::Fail;

const ON_A_NEW_LEDGER: Example = (
    "the clock never turns back",
    &[
        (Send(1000, &[]), "clock 1000"),
        (
            Open(1000, &[(1, 0, 7), (2, 0, 7)]),
            "0@1001, 0@1002, clock 1002",
        ),
        (Send(5, &[New(100, (1, 2), 10)]), "0@1003, clock 1003"),
    ],
);

const SINGLE: &[Example] = &[
    (
        "a reserved flag comes first",
        &[(Send(0, &[With(64, 0, (1, 2), 10)]), "4@5, clock 5")],
    ),
    (
        "balancing and its retries",
        &[
            (
                Send(
                    0,
                    &[
                        New(100, (1, 3), 50),
                        New(101, (3, 2), 20),
                        With(BALANCING_DEBIT, 102, (3, 2), MAX),
                        With(BALANCING_DEBIT, 102, (3, 2), 29),
                        With(BALANCING_DEBIT, 102, (3, 2), 30),
                    ],
                ),
                "0@5, 0@6, 0@7, 12@8, 18@9, clock 9",
            ),
            (Balances(3), "debits_posted 50, credits_posted 50"),
            (Amounts, "100: 50, 101: 20, 102: 30"),
        ],
    ),
    (
        "balancing with no room",
        &[
            (
                Send(0, &[With(BALANCING_DEBIT, 100, (3, 2), MAX)]),
                "0@5, clock 5",
            ),
            (Amounts, "100: 0"),
        ],
    ),
    (
        "both balancing flags",
        &[
            (
                Send(
                    0,
                    &[
                        New(100, (2, 1), 30),
                        New(101, (2, 4), 20),
                        With(BALANCING_DEBIT + BALANCING_CREDIT, 102, (1, 2), MAX),
                        With(BALANCING_CREDIT, 103, (1, 2), MAX),
                    ],
                ),
                "0@5, 0@6, 0@7, 0@8, clock 8",
            ),
            (Amounts, "100: 30, 101: 20, 102: 30, 103: 20"),
        ],
    ),
    (
        "posted debits too large",
        &[(
            Send(0, &[New(100, (1, 2), MAX), New(101, (1, 2), 1)]),
            "0@5, 50@6, clock 6",
        )],
    ),
    (
        "posted credits too large",
        &[
            (
                Send(0, &[New(100, (1, 2), MAX), New(101, (4, 2), 1)]),
                "0@5, 51@6, clock 6",
            ),
            (Failed, "clock 6"),
        ],
    ),
    (
        "a limit on the credit side",
        &[
            (Open(0, &[(5, LIMITS_CREDITS, 7)]), "0@5, clock 5"),
            (
                Send(
                    0,
                    &[
                        New(100, (5, 1), 30),
                        New(101, (1, 5), 31),
                        With(PENDING, 102, (1, 5), 30),
                        New(103, (1, 5), 1),
                    ],
                ),
                "0@6, 56@7, 0@8, 56@9, clock 9",
            ),
            (Balances(5), "debits_posted 30, credits_pending 30"),
            (Failed, "101, 103, clock 9"),
        ],
    ),
    (
        "the end of the clock",
        &[
            (Send(1 << 62, &[New(100, (1, 2), 10)]), "clock_exhausted"),
            (Amounts, ""),
            (Failed, "clock 4"),
            (Send(1 << 62, &[]), "clock 4611686018427387904"),
        ],
    ),
];

const TWO_PHASES: &[Example] = &[
    (
        "posted in part and retried",
        &[
            (
                Send(
                    0,
                    &[
                        With(PENDING, 100, (1, 2), 100),
                        Post(101, 100, 40),
                        Post(102, 100, 60),
                    ],
                ),
                "0@5, 0@6, 32@7, clock 7",
            ),
            (Balances(1), "debits_posted 40"),
            (Balances(2), "credits_posted 40"),
            (
                Send(0, &[Post(101, 100, 40), Post(101, 100, 41)]),
                "18@8, 12@9, clock 9",
            ),
            (Balances(1), "debits_posted 40"),
        ],
    ),
    (
        "posted in time",
        &[
            (Send(0, &[Timed(PENDING, 100, (1, 2), 100)]), "0@5, clock 5"),
            (
                Send(1_000_000_003, &[Post(101, 100, MAX)]),
                "0@1000000004, clock 1000000004",
            ),
            (Balances(1), "debits_posted 100"),
        ],
    ),
    (
        "posted too late",
        &[
            (Send(0, &[Timed(PENDING, 100, (1, 2), 100)]), "0@5, clock 5"),
            (
                Send(1_000_000_004, &[Post(101, 100, MAX)]),
                "34@1000000005, clock 1000000005",
            ),
            (Balances(1), ""),
        ],
    ),
    (
        "voided",
        &[
            (
                Send(
                    0,
                    &[
                        With(PENDING, 100, (1, 2), 100),
                        Void(101, 100, 99),
                        Void(101, 100, 0),
                    ],
                ),
                "0@5, 31@6, 0@7, clock 7",
            ),
            (Balances(1), ""),
            (Amounts, "100: 100, 101: 100"),
        ],
    ),
    (
        "another debit account",
        &[(
            Send(
                0,
                &[With(PENDING, 100, (1, 2), 5), PostFrom(2, 101, 100, 5)],
            ),
            "0@5, 26@6, clock 6",
        )],
    ),
    (
        "pending sums too large",
        &[(
            Send(
                0,
                &[
                    With(PENDING, 100, (1, 2), MAX),
                    With(PENDING, 101, (1, 2), 1),
                    New(102, (1, 2), 1),
                    With(PENDING, 103, (4, 2), 1),
                    New(104, (4, 2), 1),
                ],
            ),
            "0@5, 48@6, 52@7, 49@8, 53@9, clock 9",
        )],
    ),
    (
        "pending amounts count against a limit",
        &[
            (
                Send(
                    0,
                    &[
                        New(100, (1, 3), 50),
                        With(PENDING, 101, (3, 2), 50),
                        New(102, (3, 2), 1),
                    ],
                ),
                "0@5, 0@6, 55@7, clock 7",
            ),
            (Failed, "102, clock 7"),
        ],
    ),
    (
        "zero in every kind",
        &[
            (
                Send(
                    0,
                    &[
                        New(100, (1, 2), 0),
                        With(PENDING, 101, (1, 2), 0),
                        With(PENDING, 102, (1, 2), 0),
                        With(PENDING, 103, (1, 2), 10),
                        With(BALANCING_DEBIT, 104, (1, 2), 0),
                    ],
                ),
                "0@5, 0@6, 0@7, 0@8, 0@9, clock 9",
            ),
            (
                Send(
                    0,
                    &[
                        Post(105, 101, 0),
                        Void(106, 102, 0),
                        Post(107, 103, 0),
                        Post(108, 103, 10),
                    ],
                ),
                "0@10, 0@11, 0@12, 32@13, clock 13",
            ),
            (Balances(1), ""),
        ],
    ),
    (
        "the greatest amount",
        &[
            (
                Send(0, &[With(PENDING, 100, (1, 2), MAX), Post(101, 100, MAX)]),
                "0@5, 0@6, clock 6",
            ),
            (
                Balances(1),
                "debits_posted 340282366920938463463374607431768211455",
            ),
            (
                Balances(2),
                "credits_posted 340282366920938463463374607431768211455",
            ),
        ],
    ),
];

const PENDING_HUNDRED: Example = (
    "a hundred pending transfers",
    &[(Balances(1), "debits_pending 300")],
);

const POSTED_HUNDRED: Example = (
    "a hundred posts",
    &[
        (Balances(1), "debits_posted 300"),
        (Balances(2), "credits_posted 300"),
        (Failed, "clock 204"),
    ],
);

#[test]
fn answers_single_transfers(rt: HostRuntime) -> Result<(), Fail> {
    let mut new = Ledger::new(rt.alloc());
    play(&rt, rt.alloc(), &mut new, &ON_A_NEW_LEDGER)?;
    play_all(&rt, rt.alloc(), SINGLE)
}

#[test]
fn answers_pending_transfers(rt: HostRuntime) -> Result<(), Fail> {
    play_all(&rt, rt.alloc(), TWO_PHASES)
}

// Events with the numbers from 0 to 99.
fn hundred(alloc: Global, event: &Numbered) -> Result<Vec<TransferEvent>, AllocError> {
    let mut events = Vec::new(alloc);
    for number in 0..100u64 {
        let number = u128::from(number);
        events.push(match event {
            Numbered::Pending => with(PENDING, transfer(1000 + number, (1, 2), 3)),
            Numbered::Post => post(2000 + number, 1000 + number, MAX),
        })?;
    }
    Ok(events)
}

#[derive(Drop)]
enum Numbered {
    Pending,
    Post,
}

#[test]
fn posts_a_hundred(rt: HostRuntime) -> Result<(), Fail> {
    let mut ledger = base(&rt, rt.alloc())?;
    for (event, example) in [
        (Numbered::Pending, PENDING_HUNDRED),
        (Numbered::Post, POSTED_HUNDRED),
    ] {
        let _told = ledger.send(0, &hundred(rt.alloc(), &event)?)?;
        play(&rt, rt.alloc(), &mut ledger, &example)?;
    }
    Ok(())
}
