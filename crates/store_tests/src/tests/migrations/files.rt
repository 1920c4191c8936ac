use super::acts::Act::*;
use super::acts::{Act, act_on};
use super::fixture::{empty, in_memory};
use super::stored::Migrated;
use audit::DamageKind::{Balance, Clock, Entry, History, Shape, Status, Timestamp};
use migrate::MigrateFault;
use std::alloc::Global;
use std::process::Abort;
use std::test::Fail;
use store::OpenFault::{NewerSchema, NotALedger, Unreadable};

const NEWER: Migrated = Err(MigrateFault::NewerSchema);

/// What a newer version has of the transfer that was posted too late: the clock stays, transfer 100
/// has expired at its due time, no balance has it, and the history of both its accounts keeps it.
const EXPIRED: &[(&str, i64)] = &[
    ("SELECT count(*) FROM clock", 1),
    ("SELECT clock FROM clock", 1_000_000_005),
    ("SELECT count(*) FROM status", 1),
    (
        "SELECT due FROM status WHERE state = 3 AND transfer = \
            X'00000000000000000000000000000064'",
        1_000_000_005,
    ),
    ("SELECT count(*) FROM balance", 3),
    (
        "SELECT count(*) FROM balance WHERE dp = dd AND dd = cp AND cp = cc AND cc = \
            X'00000000000000000000000000000000'",
        3,
    ),
    ("SELECT count(*) FROM history", 2),
    (
        "SELECT timestamp FROM history WHERE account = X'00000000000000000000000000000001' AND \
            dp = X'00000000000000000000000000000064' AND dd = cp AND cp = cc AND cc = \
            X'00000000000000000000000000000000'",
        5,
    ),
    (
        "SELECT timestamp FROM history WHERE account = X'00000000000000000000000000000002' AND \
            cp = X'00000000000000000000000000000064' AND dp = dd AND dd = cc AND cc = \
            X'00000000000000000000000000000000'",
        5,
    ),
];

/// Each begins with the ledger of version 1.
const LEDGERS: &[&[Act]] = &[
    &[
        IsOld,
        Migrates(3, Ok(()), 3),
        Counts(EXPIRED),
        Migrates(3, Ok(()), 3),
        Migrates(1, NEWER, 3),
        Counts(EXPIRED),
        GoesOn,
    ],
    &[
        Migrates(2, Ok(()), 2),
        Counts(EXPIRED),
        IsOld,
        Migrates(2, Ok(()), 2),
        Migrates(1, NEWER, 2),
        Migrates(3, Ok(()), 3),
        Counts(EXPIRED),
        GoesOn,
    ],
    &[Serves(2, false), Serves(3, true)],
    &[
        Runs("UPDATE schema SET version = 4"),
        IsRefused(NewerSchema),
    ],
    &[Runs("UPDATE schema SET version = 0"), IsRefused(NotALedger)],
    &[Runs("UPDATE schema SET version = 2"), IsRefused(NotALedger)],
    &[
        Runs("CREATE TABLE balance (amount INTEGER)"),
        IsRefused(NotALedger),
    ],
    &[
        Migrates(2, Ok(()), 2),
        Runs("UPDATE schema SET version = 1"),
        IsRefused(NotALedger),
    ],
    &[
        Migrates(3, Ok(()), 3),
        Runs("UPDATE schema SET version = 2"),
        IsRefused(NotALedger),
    ],
    &[
        Migrates(2, Ok(()), 2),
        Runs("DROP TABLE history"),
        Runs("CREATE TABLE history (book TEXT)"),
        IsRefused(Unreadable),
    ],
    &[Runs("DELETE FROM schema"), IsRefused(NotALedger)],
    &[Runs("DROP TABLE transfer"), IsRefused(NotALedger)],
    &[
        Runs("UPDATE tenant SET name = 'a b'"),
        IsRefused(NotALedger),
    ],
    &[
        Runs("CREATE TABLE shelf (book TEXT)"),
        IsRefused(Unreadable),
    ],
    &[
        Runs("UPDATE transfer SET timestamp = 0"),
        IsDamaged(Timestamp),
    ],
    &[Runs("UPDATE transfer SET ledger = 8"), IsDamaged(Entry)],
    &[Runs("UPDATE clock SET clock = 3"), IsDamaged(Clock)],
    &[Runs("DELETE FROM clock"), IsDamaged(Shape)],
    &[
        Migrates(2, Ok(()), 2),
        Runs("UPDATE balance SET dd = x'00000000000000000000000000000001'"),
        IsDamaged(Balance),
    ],
    &[
        Migrates(2, Ok(()), 2),
        Runs("UPDATE status SET state = 0"),
        IsDamaged(Status),
    ],
    &[
        Migrates(2, Ok(()), 2),
        Runs("DELETE FROM history"),
        IsDamaged(History),
    ],
];

/// Begins with the ledger of version 1.
fn play(rt: &impl Abort, alloc: Global, acts: &[Act]) -> Result<(), Fail> {
    let mut files = in_memory(alloc)?;
    for act in acts {
        files = act_on(rt, alloc, files, act)?;
    }
    Ok(())
}

#[test]
fn a_ledger_in_memory_is_migrated_or_refused(rt: HostRuntime) -> Result<(), Fail> {
    let alloc = rt.alloc();
    for acts in LEDGERS {
        play(&rt, alloc, acts)?;
    }
    act_on(&rt, alloc, empty(alloc), &IsRefused(NotALedger))?;
    Ok(())
}
