//! What is read of tables that grow.

use super::acts::Act::*;
use super::acts::Asked::{From, Until};
use super::acts::Call::*;
use super::acts::Change::*;
use super::acts::Row::*;
use super::acts::Stage::*;
use super::acts::Table::*;
use super::acts::Times::*;
use super::acts::{Act, Spanned};
use super::scenarios::{BASE, COMMIT, NONE, Scenario};
use records::PendingState::{Open, Voided};

/// Texts by a whole key and pages, over few rows in each table and over many.
pub const GROWN: &[Scenario] = &[
    ("over few rows", &[OVER_FEW, BY_KEY, PAGES, SPANS]),
    ("over many rows", &[OVER_MANY, BY_KEY, PAGES, SPANS]),
];

const OVER_FEW: &[Act] = &[Does(BASE), AddMany(30), Does(COMMIT)];

const OVER_MANY: &[Act] = &[Does(BASE), AddMany(300), Does(COMMIT)];

/// Each text by a whole key takes few steps, as does one for all rows of a tenant that has few. A
/// scan is refused.
const BY_KEY: &[Act] = &[
    LimitSteps(8),
    Fails("SELECT count(*) FROM account WHERE code = 10"),
    Does(&[
        Take(Begin),
        Add(Tenant(2, "South", 2)),
        Add(Clock(2, 4)),
        Add(Account(1, 5, 5, 10)),
        Add(Balance(1, 5, NONE)),
        Add(Pending(100, 6)),
        Add(Status(100, Open, 6)),
        AddHistory(6, 1, 2, 100),
        Add(Failed(1, 101)),
        Set(NewBalance(1, [100, 0, 0, 0])),
        Set(NewStatus(100, Voided, 6)),
        Set(NewClock(1, 6)),
        Take(Commit),
    ]),
    Finds(&[
        Tenant(1, "North", 0x66),
        Clock(1, 6),
        Account(1, 5, 5, 10),
        Balance(1, 1, [100, 0, 0, 0]),
        Pending(100, 6),
        Status(100, Voided, 6),
        Failed(1, 101),
    ]),
    FirstTwo(From(1, 0), (Some(6), Some(1000))),
    FirstTwo(Until(2, 1001), (Some(1001), Some(1000))),
    Lists(Clocks(2), &[4]),
    Lists(Accounts(2), &[]),
    Lists(Transfers(2), &[]),
    Lists(Balances(2), &[]),
    Lists(Statuses(2), &[]),
    Lists(Histories(2), &[]),
    Lists(FailedIds(2), &[]),
];

/// A page takes as many steps as it has entries, whatever the account has more.
const PAGES: &[Act] = &[
    LimitSteps(40),
    Page(
        From(1, 0),
        10,
        &[6, 1000, 1001, 1002, 1003, 1004, 1005, 1006, 1007, 1008],
    ),
    Page(
        Until(2, 1009),
        10,
        &[1009, 1008, 1007, 1006, 1005, 1004, 1003, 1002, 1001, 1000],
    ),
];

/// A part of a span takes as many steps as it has rows, whatever the span has more.
const SPANS: &[Act] = &[
    LimitSteps(20),
    Span(
        Spanned(1, (5, i64::MAX), 4),
        OldestAccounts(&[(5, 5), (1000, 1000), (1001, 1001), (1002, 1002)]),
    ),
    Span(
        Spanned(1, (0, 1009), 4),
        NewestAccounts(&[(1009, 1009), (1008, 1008), (1007, 1007), (1006, 1006)]),
    ),
    Span(
        Spanned(1, (6, i64::MAX), 4),
        OldestTransfers(&[(100, 6), (1000, 1000), (1001, 1001), (1002, 1002)]),
    ),
    Span(
        Spanned(1, (0, 1009), 4),
        NewestTransfers(&[(1009, 1009), (1008, 1008), (1007, 1007), (1006, 1006)]),
    ),
];
