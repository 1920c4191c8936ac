//! What is read of spans of time.

use super::acts::Act::*;
use super::acts::Call::*;
use super::acts::Row::*;
use super::acts::Stage::*;
use super::acts::Times::*;
use super::acts::{Act, Spanned};
use super::scenarios::{BASE, Scenario};

pub const SPANNED: &[Scenario] = &[
    ("spans of accounts", &[SPANS_OF_ACCOUNTS]),
    ("spans of transfers", &[SPANS_OF_TRANSFERS]),
];

/// Accounts 1 to 4 of tenant 1 at these times; of tenant 2 account 2 at 2 and account 1 at 9.
const SPANS_OF_ACCOUNTS: &[Act] = &[
    Does(BASE),
    Does(&[
        Add(Tenant(2, "South", 2)),
        Add(Account(2, 1, 9, 10)),
        Add(Account(2, 2, 2, 10)),
        Take(Commit),
    ]),
    Span(Spanned(1, (2, 3), 10), OldestAccounts(&[(2, 2), (3, 3)])),
    Span(Spanned(1, (2, 3), 10), NewestAccounts(&[(3, 3), (2, 2)])),
    Span(
        Spanned(1, (0, i64::MAX), 3),
        OldestAccounts(&[(1, 1), (2, 2), (3, 3)]),
    ),
    Span(
        Spanned(1, (0, i64::MAX), 3),
        NewestAccounts(&[(4, 4), (3, 3), (2, 2)]),
    ),
    Span(
        Spanned(1, (i64::MIN, i64::MAX), u32::MAX),
        NewestAccounts(&[(4, 4), (3, 3), (2, 2), (1, 1)]),
    ),
    Span(Spanned(1, (4, 4), 1), OldestAccounts(&[(4, 4)])),
    Span(Spanned(1, (1, 1), 1), NewestAccounts(&[(1, 1)])),
    Span(Spanned(1, (1, 4), 0), OldestAccounts(&[])),
    Span(Spanned(1, (1, 4), 0), NewestAccounts(&[])),
    Span(Spanned(1, (3, 2), 10), OldestAccounts(&[])),
    Span(Spanned(1, (3, 2), 10), NewestAccounts(&[])),
    Span(Spanned(1, (5, i64::MAX), 10), OldestAccounts(&[])),
    Span(Spanned(2, (2, 9), 10), OldestAccounts(&[(2, 2), (1, 9)])),
    Span(Spanned(2, (2, 9), 10), NewestAccounts(&[(1, 9), (2, 2)])),
    Span(Spanned(2, (3, 8), 10), NewestAccounts(&[])),
    Span(Spanned(3, (0, i64::MAX), 10), OldestAccounts(&[])),
];

/// Transfers of tenant 1 whose ids fall as their times rise.
const SPANS_OF_TRANSFERS: &[Act] = &[
    Does(BASE),
    Does(&[
        Add(Pending(102, 100)),
        Add(Pending(101, 101)),
        Add(Pending(100, 102)),
        Take(Commit),
    ]),
    Span(
        Spanned(1, (101, 102), 10),
        OldestTransfers(&[(101, 101), (100, 102)]),
    ),
    Span(
        Spanned(1, (100, 101), 10),
        NewestTransfers(&[(101, 101), (102, 100)]),
    ),
    Span(
        Spanned(1, (0, i64::MAX), 2),
        OldestTransfers(&[(102, 100), (101, 101)]),
    ),
    Span(
        Spanned(1, (0, i64::MAX), 2),
        NewestTransfers(&[(100, 102), (101, 101)]),
    ),
    Span(
        Spanned(1, (i64::MIN, i64::MAX), u32::MAX),
        OldestTransfers(&[(102, 100), (101, 101), (100, 102)]),
    ),
    Span(Spanned(1, (101, 101), 1), NewestTransfers(&[(101, 101)])),
    Span(Spanned(1, (100, 102), 0), OldestTransfers(&[])),
    Span(Spanned(1, (102, 100), 10), NewestTransfers(&[])),
    Span(Spanned(1, (0, 99), 10), NewestTransfers(&[])),
    Span(Spanned(1, (103, i64::MAX), 10), OldestTransfers(&[])),
    Span(Spanned(2, (0, i64::MAX), 10), OldestTransfers(&[])),
];
