//! The worked examples of chains, and what they leave.
use super::played::Act::{Amounts, Balances, Failed, Open, Send};
use super::played::Sent::{New, Post, With};
use super::played::{Example, MAX, play_all};
use samples::{LINKED, PENDING};
use std::test::Fail;

const CHAINS: &[Example] = &[
    (
        "a chain falls whole",
        &[
            (
                Send(
                    0,
                    &[
                        With(LINKED, 100, (1, 2), 10),
                        With(LINKED, 101, (3, 2), 10),
                        New(102, (1, 4), 10),
                    ],
                ),
                "2@5, 55@6, 2@7, clock 7",
            ),
            (Amounts, ""),
            (Balances(1), ""),
            (Failed, "101, clock 7"),
        ],
    ),
    (
        "a chain left open",
        &[
            (
                Send(
                    0,
                    &[With(LINKED, 100, (1, 2), 10), With(LINKED, 101, (1, 2), 10)],
                ),
                "2@5, 1@6, clock 6",
            ),
            (Amounts, ""),
            (Failed, "clock 6"),
        ],
    ),
    (
        "pending and post in one chain, sent twice",
        &[
            (
                Send(
                    0,
                    &[With(LINKED + PENDING, 100, (1, 2), 70), Post(101, 100, MAX)],
                ),
                "0@5, 0@6, clock 6",
            ),
            (Amounts, "100: 70, 101: 70"),
            (
                Send(
                    0,
                    &[With(LINKED + PENDING, 100, (1, 2), 70), Post(101, 100, MAX)],
                ),
                "18@7, 2@8, clock 8",
            ),
            (Balances(1), "debits_posted 70"),
            (Failed, "clock 8"),
        ],
    ),
    (
        "the first failure of a chain",
        &[
            (
                Send(0, &[With(LINKED, 100, (1, 9), 1), New(101, (1, 9), 1)]),
                "45@5, 2@6, clock 6",
            ),
            (Failed, "100, clock 6"),
        ],
    ),
    (
        "a failure behind the first event",
        &[
            (
                Send(
                    0,
                    &[
                        With(LINKED, 100, (1, 2), 10),
                        New(101, (1, 9), 10),
                        New(102, (1, 2), 5),
                    ],
                ),
                "2@5, 45@6, 0@7, clock 7",
            ),
            (Failed, "101, clock 7"),
        ],
    ),
    (
        "a failure in a chain left open",
        &[
            (
                Send(
                    0,
                    &[
                        With(LINKED, 100, (1, 9), 1),
                        With(LINKED, 101, (1, 2), 1),
                        With(LINKED, 102, (1, 2), 1),
                    ],
                ),
                "45@5, 2@6, 1@7, clock 7",
            ),
            (Failed, "100, clock 7"),
        ],
    ),
    (
        "accounts in a chain",
        &[
            (Open(0, &[(5, LINKED, 7), (6, 0, 0)]), "2@5, 19@6, clock 6"),
            (Failed, "clock 6"),
        ],
    ),
    (
        "an id twice in one chain",
        &[(
            Send(0, &[With(LINKED, 100, (1, 2), 1), New(100, (1, 2), 1)]),
            "2@5, 7@6, clock 6",
        )],
    ),
    (
        "an id twice in a longer chain",
        &[
            (
                Send(
                    0,
                    &[
                        With(LINKED, 100, (1, 2), 1),
                        With(LINKED, 100, (1, 2), 1),
                        New(101, (1, 2), 1),
                    ],
                ),
                "2@5, 18@6, 2@7, clock 7",
            ),
            (Failed, "clock 7"),
        ],
    ),
];

#[test]
fn answers_chains(rt: HostRuntime) -> Result<(), Fail> {
    play_all(&rt, rt.alloc(), CHAINS)
}
