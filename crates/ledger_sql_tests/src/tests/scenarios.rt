//! What is written, and what is found of it. The base is that of the model: tenant 1 with the
//! accounts 1 to 4, of ledger 7 and code 10.

use super::acts::Act::*;
use super::acts::Asked::{From, Until};
use super::acts::Call::*;
use super::acts::Change::*;
use super::acts::Filled::*;
use super::acts::Made::*;
use super::acts::Row::*;
use super::acts::Stage::*;
use super::acts::Table::*;
use super::acts::{Act, Call};
use records::PendingState::{Open, Posted, Voided};

/// No sums.
pub const NONE: [u32; 4] = [0; 4];

/// The base, in a transaction that stays open.
pub const BASE: &[Call] = &[
    Take(Begin),
    Make(AllTables),
    Add(Tenant(1, "North", 0x66)),
    Add(Clock(1, 4)),
    Add(Account(1, 1, 1, 10)),
    Add(Balance(1, 1, NONE)),
    Add(Account(1, 2, 2, 10)),
    Add(Balance(1, 2, NONE)),
    Add(Account(1, 3, 3, 10)),
    Add(Balance(1, 3, NONE)),
    Add(Account(1, 4, 4, 10)),
    Add(Balance(1, 4, NONE)),
];

pub const COMMIT: &[Call] = &[Take(Commit)];

/// Pending transfer 100, with all that it adds.
const PENDING_100: &[Call] = &[
    Add(Pending(100, 5)),
    Add(Status(100, Open, 5)),
    AddHistory(5, 1, 2, 100),
];

/// What is done, in parts. Each begins with an empty database.
pub type Scenario = (&'static str, &'static [&'static [Act]]);

pub static SCENARIOS: [Scenario; 11] = [
    ("the base", &[THE_BASE]),
    ("pending and post", &[PENDING_AND_POST]),
    ("two tenants", &[TWO_TENANTS]),
    ("taken keys", &[TAKEN_KEYS]),
    ("stages misplaced", &[MISPLACED]),
    ("rows out of order", &[OUT_OF_ORDER]),
    ("directory", &[DIRECTORY]),
    ("entries", &[ENTRIES]),
    ("what is undone", &[UNDONE]),
    ("the balance schema", &[BALANCE_SCHEMA]),
    ("a file found again", &[WRITTEN, FOUND_AGAIN]),
];

const THE_BASE: &[Act] = &[
    Does(BASE),
    Does(COMMIT),
    Finds(&[
        Tenant(1, "North", 0x66),
        Clock(1, 4),
        Account(1, 1, 1, 10),
        Account(1, 2, 2, 10),
        Account(1, 3, 3, 10),
        Account(1, 4, 4, 10),
        Balance(1, 1, NONE),
        Balance(1, 2, NONE),
        Balance(1, 3, NONE),
        Balance(1, 4, NONE),
    ]),
    Lacks(&[
        Tenant(1, "North", 0),
        Clock(2, 4),
        Account(1, 5, 5, 10),
        Account(2, 1, 1, 10),
        Balance(1, u128::MAX, NONE),
        Pending(100, 5),
        Status(100, Open, 5),
        Failed(1, 100),
    ]),
];

/// The example of the model that is posted in time.
const PENDING_AND_POST: &[Act] = &[
    Does(BASE),
    Does(PENDING_100),
    Does(&[
        Set(NewBalance(1, [100, 0, 0, 0])),
        Set(NewBalance(2, [0, 0, 100, 0])),
        Set(NewClock(1, 5)),
        Take(Commit),
    ]),
    Counts(&[("SELECT due FROM status", 1_000_000_005)]),
    Finds(&[
        Status(100, Open, 5),
        Pending(100, 5),
        Balance(1, 1, [100, 0, 0, 0]),
        Balance(1, 2, [0, 0, 100, 0]),
        Balance(1, 3, NONE),
    ]),
    Does(&[
        Take(Begin),
        Add(Post),
        Set(NewStatus(100, Posted, 5)),
        Set(NewBalance(1, [0, 100, 0, 0])),
        Set(NewBalance(2, [0, 0, 0, 100])),
        Set(NewClock(1, 1_000_000_004)),
        Add(Failed(1, 102)),
        Take(Commit),
    ]),
    Finds(&[
        Status(100, Posted, 5),
        Post,
        Clock(1, 1_000_000_004),
        Failed(1, 102),
        Balance(1, 1, [0, 100, 0, 0]),
        Balance(1, 2, [0, 0, 0, 100]),
        Balance(1, 3, NONE),
    ]),
];

/// Other rows under the same keys.
const TWO_TENANTS: &[Act] = &[
    Does(BASE),
    Does(&[
        Add(Tenant(2, "South", 2)),
        Add(Clock(2, 9)),
        Add(Account(2, 1, 1, 11)),
        Add(Failed(2, 100)),
        Set(NewClock(2, 10)),
        Set(NewVersion),
        Take(Commit),
    ]),
    Finds(&[
        Tenant(2, "South", 2),
        Account(1, 1, 1, 10),
        Account(2, 1, 1, 11),
        Clock(1, 4),
        Clock(2, 10),
        Failed(2, 100),
    ]),
    Lacks(&[Account(2, 2, 2, 10), Failed(1, 100)]),
];

/// A refused text changes nothing, and the transaction goes on.
const TAKEN_KEYS: &[Act] = &[
    Does(BASE),
    Does(PENDING_100),
    Does(&[Add(Failed(1, 200))]),
    Refuses(&[
        AddVersion,
        Add(Tenant(1, "South", 1)),
        Add(Tenant(2, "North", 1)),
        Add(Tenant(2, "South", 0x66)),
        Add(Clock(1, 9)),
        // of nobody
        Add(Clock(2, 9)),
        Add(Account(2, 6, 6, 10)),
        Add(Account(1, 1, 6, 10)),
        // a taken timestamp
        Add(Account(1, 6, 1, 10)),
        Add(Pending(100, 6)),
        Add(Pending(101, 5)),
        Add(Balance(1, 1, [1, 1, 1, 1])),
        Add(Status(100, Voided, 5)),
        Add(Failed(1, 200)),
        // the second of two rows of history
        AddHistory(5, 3, 1, 1),
    ]),
    Does(COMMIT),
    Counts(&[
        ("SELECT count(*) FROM schema", 1),
        ("SELECT count(*) FROM tenant", 1),
        ("SELECT count(*) FROM clock WHERE clock = 4", 1),
        ("SELECT count(*) FROM account", 4),
        ("SELECT count(*) FROM transfer WHERE timestamp = 5", 1),
        ("SELECT count(*) FROM balance", 4),
        ("SELECT count(*) FROM status WHERE state = 0", 1),
        ("SELECT count(*) FROM history", 2),
        ("SELECT count(*) FROM failed", 1),
    ]),
];

const MISPLACED: &[Act] = &[
    IsOpen(true),
    Refuses(COMMIT),
    Does(&[Take(Begin)]),
    Refuses(&[Take(Begin)]),
    IsOpen(false),
    Does(&[Make(AllTables)]),
    Refuses(&[Make(AllTables)]),
];

/// Rows that are read in another order than they were written.
const OUT_OF_ORDER: &[Act] = &[
    Does(&[
        Take(Begin),
        Make(AllTables),
        Add(Tenant(2, "South", 2)),
        Add(Tenant(1, "North", 0x66)),
        Add(Clock(2, 4)),
        Add(Account(2, 2, 2, 10)),
        Add(Balance(2, 2, NONE)),
        Add(Failed(2, 2)),
        Add(Account(2, 1, 1, 10)),
        Add(Balance(2, 1, NONE)),
        Add(Failed(2, 1)),
        Add(Clock(1, 4)),
        Add(Account(1, 2, 2, 10)),
        Add(Balance(1, 2, NONE)),
        Add(Failed(1, 2)),
        Add(Account(1, 1, 1, 10)),
        Add(Balance(1, 1, NONE)),
        Add(Failed(1, 1)),
        Add(Pending(101, 6)),
        Add(Status(101, Open, 6)),
        AddHistory(6, 1, 2, 100),
    ]),
    Does(PENDING_100),
    Does(COMMIT),
    Lists(Accounts(1), &[1, 2]),
    Lists(Accounts(2), &[1, 2]),
    Lists(Balances(1), &[1, 2]),
    Lists(Balances(2), &[1, 2]),
    Lists(FailedIds(1), &[1, 2]),
    Lists(FailedIds(2), &[1, 2]),
    Lists(Transfers(1), &[100, 101]),
    Lists(Transfers(2), &[]),
    Lists(Statuses(1), &[100, 101]),
    Lists(Statuses(2), &[]),
    Lists(Histories(1), &[1, 1, 2, 2]),
    Lists(Histories(2), &[]),
];

const DIRECTORY: &[Act] = &[
    Does(BASE),
    Does(&[
        Add(Tenant(3, "West", 3)),
        Add(Tenant(2, "South", 2)),
        Take(Commit),
    ]),
    Lists(Directory, &[0x66, 2, 3]),
    Finds(&[Tenant(2, "South", 2)]),
    Names(&[("South", Some(2)), ("south", None)]),
    Lists(Versions, &[3]),
    Lists(Clocks(1), &[4]),
    Lists(Clocks(2), &[]),
    Lists(Accounts(1), &[1, 2, 3, 4]),
    Lists(Accounts(4), &[]),
    ListsCells,
];

/// Accounts 1 and 2 with three transfers; account 3 has none.
const ENTRIES: &[Act] = &[
    Does(BASE),
    Does(&[
        Add(Pending(100, 100)),
        AddHistory(100, 1, 2, 100),
        Add(Pending(101, 101)),
        AddHistory(101, 1, 2, 100),
        Add(Pending(102, 102)),
        AddHistory(102, 1, 2, 100),
        Take(Commit),
    ]),
    Entries(From(1, 101), &[(101, 101), (102, 102)]),
    Entries(Until(2, 101), &[(101, 101), (100, 100)]),
    Entries(From(3, 0), &[]),
    FirstTwo(From(2, 0), (Some(100), Some(101))),
    FirstTwo(Until(1, i64::MAX), (Some(102), Some(101))),
    FirstTwo(Until(1, 100), (Some(100), None)),
    Page(From(1, 0), 2, &[100, 101]),
    Page(From(1, 0), 3, &[100, 101, 102]),
    Page(From(1, 0), 4, &[100, 101, 102]),
    Page(From(2, 101), 1, &[101]),
    Page(From(1, 0), 0, &[]),
    Page(From(3, 0), 10, &[]),
    Page(Until(2, i64::MAX), 2, &[102, 101]),
    Page(Until(2, i64::MAX), 3, &[102, 101, 100]),
    Page(Until(2, i64::MAX), u32::MAX, &[102, 101, 100]),
    Page(Until(1, 101), 1, &[101]),
    Page(Until(1, 99), 10, &[]),
];

/// Of the failed ids 1 to 6, marks and undone transactions leave 1 and 4.
const UNDONE: &[Act] = &[
    Does(BASE),
    Does(&[Take(Abandon)]),
    // before the commit there are no tables
    Counts(&[("SELECT count(*) FROM sqlite_schema", 0)]),
    Does(BASE),
    Does(&[
        Add(Failed(1, 1)),
        Take(Mark),
        Add(Failed(1, 2)),
        Take(BackToMark),
        Add(Failed(1, 3)),
        Take(BackToMark),
        Add(Failed(1, 4)),
        Take(ReleaseMark),
        Take(Mark),
        Take(ReleaseMark),
        Take(Commit),
        Take(Begin),
        Add(Failed(1, 5)),
        Take(Rollback),
        Take(Begin),
        Take(Mark),
        Add(Failed(1, 6)),
        Take(Abandon),
    ]),
    // no transaction is open
    IsOpen(true),
    Does(&[Take(Abandon)]),
    Finds(&[Failed(1, 1), Failed(1, 4)]),
    Lacks(&[Failed(1, 2), Failed(1, 3), Failed(1, 5), Failed(1, 6)]),
    Does(&[Take(Begin), Take(Rollback)]),
    Counts(&[
        ("SELECT count(*) FROM failed", 2),
        ("SELECT version FROM schema", 3),
    ]),
];

/// The tables of the balance schema, filled from cells, and its version.
const BALANCE_SCHEMA: &[Act] = &[
    Does(&[
        Take(Begin),
        Make(SchemaTable),
        Make(TenantTable),
        Make(ClockTable),
        Make(AccountTable),
        Make(TransferTable),
        Make(BalanceTables),
        AddVersion,
        Add(Tenant(1, "North", 0x66)),
        Add(Account(1, 1, 1, 10)),
        Add(Account(1, 2, 2, 10)),
        Add(Pending(100, 5)),
        Fill(BalanceCells(1, [100, 0, 0, 0])),
        Fill(StatusCells(100, Open, 5)),
        Fill(HistoryCells(1, 5, 100)),
        Fill(BalanceVersion),
        Take(Commit),
    ]),
    Finds(&[Balance(1, 1, [100, 0, 0, 0]), Status(100, Open, 5)]),
    Counts(&[
        ("SELECT version FROM schema", 2),
        ("SELECT timestamp FROM history WHERE tenant = 1", 5),
    ]),
];

/// Rows of two tenants.
const WRITTEN: &[Act] = &[
    Does(BASE),
    Does(PENDING_100),
    Does(&[
        Add(Failed(1, 101)),
        Add(Tenant(2, "South", 2)),
        Add(Account(2, 3, 3, 10)),
        Take(Commit),
    ]),
];

/// What is found of them when the file is opened again.
const FOUND_AGAIN: &[Act] = &[
    Finds(&[Account(2, 3, 3, 10), Pending(100, 5), Failed(1, 101)]),
    Lacks(&[Account(2, 1, 1, 10)]),
    Counts(&[("SELECT version FROM schema", 3)]),
];
