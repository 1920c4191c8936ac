//! What a test does, done.

use super::acts::{Act, Call, Row};
use super::calls::{Done, answer};
use super::entries::{tells, tells_page, tells_two};
use super::finds::{Found, find, is_named, number_of};
use super::lists::{lists, lists_cells};
use super::many::add_many;
use super::places::{Visit, at_path, in_memory};
use super::scenarios::Scenario;
use super::spans::tells_span;
use super::unclaimed::Unclaimed;
use ledger_sql::stages::is_open;
use records::Unavailable;
use sqlite::Connection;
use std::alloc::Global;
use std::fmt::Debug;
use std::fs;
use std::process::Abort;
use std::test::Fail;

/// Parts of a scenario, which are done one behind the other.
#[derive(Drop)]
struct Parts<'a> {
    what: &'a str,
    parts: &'a [&'a [Act]],
}

impl Visit for Parts<'_> {
    type Told = ();

    fn visit<S: Unclaimed, R: Abort>(
        &self,
        rt: &R,
        alloc: Global,
        conn: &mut Connection<S>,
    ) -> Result<(), Fail> {
        for acts in self.parts {
            run(rt, alloc, conn, self.what, acts)?;
        }
        Ok(())
    }
}

/// Runs each scenario.
pub fn run_all(
    rt: &HostRuntime,
    abort: &impl Abort,
    folder: &str,
    scenarios: &[Scenario],
) -> Result<(), Fail> {
    for scenario in scenarios {
        run_both(rt, abort, folder, *scenario)?;
    }
    Ok(())
}

/// Runs the parts of a scenario in memory, and over a file in a new folder, which is opened again
/// for each part.
fn run_both(
    rt: &HostRuntime,
    abort: &impl Abort,
    folder: &str,
    (what, parts): Scenario,
) -> Result<(), Fail> {
    in_memory(rt, abort, &Parts { what, parts })?;
    let _ = fs::remove_dir_all(rt, folder);
    fs::create_dir(rt, folder)?;
    let path = format!(in rt.alloc(); "{folder}/ledger.db")?;
    for acts in parts {
        let parts = &[*acts];
        at_path(rt, abort, path.as_str(), &Parts { what, parts })?;
    }
    fs::remove_dir_all(rt, folder)?;
    Ok(())
}

/// Does one thing after the other. `what` is told where one is not so.
fn run<S: Unclaimed>(
    rt: &impl Abort,
    alloc: Global,
    conn: &mut Connection<S>,
    what: &str,
    acts: &[Act],
) -> Result<(), Fail> {
    for (place, act) in acts.iter().enumerate() {
        let wrong = first_wrong(alloc, conn, act)?;
        assert_eq!(rt; wrong, None, "{what}: act {place}");
    }
    Ok(())
}

/// The place of the first thing in an act that is not so.
fn first_wrong<S: Unclaimed>(
    alloc: Global,
    conn: &mut Connection<S>,
    act: &Act,
) -> Result<Option<usize>, Fail> {
    match act {
        Act::Does(calls) => Ok(other_answer(conn, calls, Ok(()))),
        Act::Refuses(calls) => Ok(other_answer(conn, calls, Err(Unavailable::Size))),
        Act::Finds(rows) => Ok(found_other(conn, rows, Found::ThisRow)),
        Act::Lacks(rows) => Ok(found_other(conn, rows, Found::Nothing)),
        Act::Names(names) => Ok(named_other(conn, names)),
        Act::Counts(texts) => Ok(counted_other(conn, texts)),
        Act::Lists(table, keys) => said(lists(alloc, conn, table, keys)),
        Act::ListsCells => said(lists_cells(alloc, conn)),
        Act::Entries(asked, told) => said(tells(alloc, conn, asked, told)),
        Act::FirstTwo(asked, times) => said(tells_two(conn, asked, times)),
        Act::Page(asked, count, times) => said(tells_page(alloc, conn, asked, *count, times)),
        Act::Span(asked, told) => said(tells_span(alloc, conn, asked, *told)),
        Act::IsOpen(open) => Ok(unless(is_open(conn) == *open)),
        Act::AddMany(rows) => Ok(unless(add_many(alloc, conn, *rows)?)),
        Act::LimitSteps(steps) => {
            conn.set_step_limit(Some(*steps));
            Ok(None)
        }
        Act::Fails(text) => Ok(unless(number(conn, text).is_err())),
    }
}

/// The place of an act that has one thing, unless it is so.
fn unless(holds: bool) -> Option<usize> {
    if holds { None } else { Some(0) }
}

fn said<E: Debug + Drop>(answer: Result<bool, E>) -> Result<Option<usize>, Fail> {
    Ok(unless(answer?))
}

fn other_answer<S: Unclaimed>(
    conn: &mut Connection<S>,
    calls: &[Call],
    want: Done,
) -> Option<usize> {
    for (place, call) in calls.iter().enumerate() {
        if answer(conn, call) != want {
            return Some(place);
        }
    }
    None
}

fn found_other<S: Unclaimed>(conn: &mut Connection<S>, rows: &[Row], want: Found) -> Option<usize> {
    for (place, row) in rows.iter().enumerate() {
        if find(conn, row) != Ok(want) {
            return Some(place);
        }
    }
    None
}

fn named_other<S: Unclaimed>(
    conn: &mut Connection<S>,
    names: &[(&str, Option<i64>)],
) -> Option<usize> {
    for (place, (name, want)) in names.iter().enumerate() {
        if number_of(conn, name) != Ok(*want) || !leads_back(conn, *want, name) {
            return Some(place);
        }
    }
    None
}

/// Whether a number, if there is one, is that of the tenant with this name.
fn leads_back<S: Unclaimed>(conn: &mut Connection<S>, number: Option<i64>, name: &str) -> bool {
    match number {
        Some(number) => is_named(conn, number, name) == Ok(true),
        None => true,
    }
}

fn counted_other<S: Unclaimed>(conn: &mut Connection<S>, texts: &[(&str, i64)]) -> Option<usize> {
    for (place, (text, want)) in texts.iter().enumerate() {
        if number(conn, text).ok() != Some(*want) {
            return Some(place);
        }
    }
    None
}

/// The number that a text of SQL answers.
fn number<S: Unclaimed>(conn: &mut Connection<S>, text: &str) -> Result<i64, sqlite::Error> {
    conn.query_row(text, &[])?.get(0)
}
