//! Schemas as statements make them in a connection, and what `ledger_shape` answers of them.

use super::places::{Visit, in_memory};
use super::statements::{CHANGES, OURS};
use super::unclaimed::Unclaimed;
use ledger_shape::{has_balances, has_lists, is_balances, is_ledger, is_lists};
use sqlite::Connection;
use std::alloc::Global;
use std::process::Abort;
use std::test::Fail;

/// What is answered of a schema.
#[derive(Clone, Copy, Debug, PartialEq, Eq)]
struct Answers {
    ledger: bool,
    has_lists: bool,
    has_balances: bool,
    lists: bool,
    balances: bool,
}

const NOTHING: Answers = Answers {
    ledger: false,
    has_lists: false,
    has_balances: false,
    lists: false,
    balances: false,
};

/// The first five tables, with more behind them.
const WITH_LISTS: Answers = Answers {
    has_lists: true,
    ..NOTHING
};

/// The first eight tables, with more behind them.
const WITH_BALANCES: Answers = Answers {
    has_balances: true,
    ..WITH_LISTS
};

const LISTS: Answers = Answers {
    lists: true,
    ..WITH_LISTS
};

const BALANCES: Answers = Answers {
    balances: true,
    ..WITH_BALANCES
};

const LEDGER: Answers = Answers {
    ledger: true,
    ..WITH_BALANCES
};

const NOTE: &str = "CREATE TABLE note (id INTEGER PRIMARY KEY, text TEXT)";

const INDEX: &str = "CREATE INDEX by_code ON account (code)";

const VIEW: &str = "CREATE VIEW code AS SELECT code FROM account";

/// The statements before our tables, how many of ours are made, the statements behind them, and
/// what is answered.
static CASES: [(&[&str], usize, &[&str], Answers); 15] = [
    (&[], 0, &[], NOTHING),
    (&[], 4, &[], NOTHING),
    (&[], 5, &[], LISTS),
    (&[], 5, &[NOTE], WITH_LISTS),
    (&[], 5, &[INDEX], WITH_LISTS),
    (&[], 5, &[VIEW], WITH_LISTS),
    (&[], 8, &[], BALANCES),
    (&[], 8, &[NOTE], WITH_BALANCES),
    (&[], 8, &[INDEX], WITH_BALANCES),
    (&[], 9, &[], LEDGER),
    (&[], 9, &[NOTE], LEDGER),
    (
        &[],
        9,
        &[NOTE, "CREATE TABLE tag (note INTEGER REFERENCES note (id))"],
        LEDGER,
    ),
    (
        &[],
        9,
        &["CREATE TABLE tag (tenant INTEGER REFERENCES tenant (no))"],
        WITH_BALANCES,
    ),
    (
        &[],
        9,
        &["CREATE TABLE tag (tenant INTEGER REFERENCES TENANT (no))"],
        WITH_BALANCES,
    ),
    (&[NOTE], 9, &[], NOTHING),
];

fn ask<S: Unclaimed>(conn: &Connection<S>) -> Answers {
    let schema = conn.schema();
    Answers {
        ledger: is_ledger(schema),
        has_lists: has_lists(schema),
        has_balances: has_balances(schema),
        lists: is_lists(schema),
        balances: is_balances(schema),
    }
}

fn make<S: Unclaimed>(conn: &mut Connection<S>, statements: &[&str]) -> Result<(), sqlite::Error> {
    for statement in statements {
        conn.execute_batch(statement)?;
    }
    Ok(())
}

/// What is answered after some statements, so many of ours, and some more.
#[derive(Drop)]
struct Made<'a> {
    before: &'a [&'a str],
    ours: usize,
    behind: &'a [&'a str],
}

impl Visit for Made<'_> {
    type Told = Answers;

    fn visit<S: Unclaimed, R: Abort>(
        &self,
        _rt: &R,
        _alloc: Global,
        conn: &mut Connection<S>,
    ) -> Result<Answers, Fail> {
        make(conn, self.before)?;
        for statement in OURS.iter().take(self.ours) {
            conn.execute_batch(statement)?;
        }
        make(conn, self.behind)?;
        Ok(ask(conn))
    }
}

/// What is answered of our tables with one text for another in one of the statements.
#[derive(Drop)]
struct Changed<'a> {
    at: usize,
    old: &'a str,
    new: &'a str,
}

impl Visit for Changed<'_> {
    type Told = Answers;

    fn visit<S: Unclaimed, R: Abort>(
        &self,
        _rt: &R,
        alloc: Global,
        conn: &mut Connection<S>,
    ) -> Result<Answers, Fail> {
        for (place, ours) in OURS.iter().enumerate() {
            if place == self.at {
                let statement = ours.replace(alloc, self.old, self.new)?;
                conn.execute_batch(statement.as_str())?;
            } else {
                conn.execute_batch(ours)?;
            }
        }
        Ok(ask(conn))
    }
}

#[test]
fn each_version_is_told_with_strangers_behind(rt: HostRuntime) -> Result<(), Fail> {
    for (case, (before, ours, behind, want)) in CASES.iter().enumerate() {
        let made = Made {
            before,
            ours: *ours,
            behind,
        };
        let told = in_memory(&rt, &rt, &made)?;
        assert_eq!(rt; told, *want, "case {case}");
    }
    let turned = Made {
        before: &[OURS[0], OURS[2], OURS[1]],
        ours: 0,
        behind: &OURS[3..],
    };
    let told = in_memory(&rt, &rt, &turned)?;
    assert_eq!(rt; told, NOTHING, "another order");
    Ok(())
}

#[test]
fn a_changed_table_is_not_ours(rt: HostRuntime) -> Result<(), Fail> {
    for (what, at, old, new) in &CHANGES {
        let changed = Changed { at: *at, old, new };
        let told = in_memory(&rt, &rt, &changed)?;
        let want = (false, 8 <= *at, 5 <= *at);
        assert_eq!(rt;
            (told.ledger, told.has_balances, told.has_lists),
            want,
            "{what}"
        );
    }
    Ok(())
}
