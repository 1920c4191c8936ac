//! The worked examples of ids that failed for good, and those that did not.
use super::played::Act::{Failed, Open, Send};
use super::played::Sent::{New, Post, With};
use super::played::{Example, play_all};
use samples::{LINKED, PENDING, POST};
use std::test::Fail;

const FAILED_IDS: &[Example] = &[
    (
        "a failed id stays failed",
        &[
            (Send(0, &[New(100, (9, 2), 10)]), "44@5, clock 5"),
            (Open(0, &[(9, 0, 7)]), "0@6, clock 6"),
            (Send(0, &[New(100, (9, 2), 10)]), "60@7, clock 7"),
            (Send(0, &[New(101, (9, 2), 10)]), "0@8, clock 8"),
            (
                Send(0, &[Post(102, 77, 5), Post(102, 77, 5)]),
                "24@9, 60@10, clock 10",
            ),
            (
                Send(0, &[With(LINKED, 103, (1, 2), 1), New(104, (3, 2), 1)]),
                "2@11, 55@12, clock 12",
            ),
            (
                Send(0, &[New(104, (1, 2), 1), New(103, (1, 2), 1)]),
                "60@13, 0@14, clock 14",
            ),
            (
                Send(
                    0,
                    &[
                        With(64, 104, (1, 2), 1),
                        With(PENDING + POST, 104, (1, 2), 1),
                    ],
                ),
                "4@15, 60@16, clock 16",
            ),
            (Failed, "100, 102, 104, clock 16"),
        ],
    ),
    (
        "other failures may be tried again",
        &[
            (Open(0, &[(5, 0, 8)]), "0@5, clock 5"),
            (Send(0, &[New(100, (1, 5), 1)]), "46@6, clock 6"),
            (Failed, "clock 6"),
            (Send(0, &[New(100, (1, 2), 1)]), "0@7, clock 7"),
        ],
    ),
];

#[test]
fn answers_failed_ids(rt: HostRuntime) -> Result<(), Fail> {
    play_all(&rt, rt.alloc(), FAILED_IDS)
}
