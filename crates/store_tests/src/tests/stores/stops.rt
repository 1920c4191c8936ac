//! Disks that stop at some call of a request. What is opened after the crash holds the rows before
//! the request, or those after it.

use super::bench::Bench;
use super::faults::NOTHING;
use super::playing::{BASE, other_answer, play};
use crate::tests::disks::{Calls, Faulty, InMemory, SMALL};
use std::alloc::Global;
use std::process::Abort;

/// A request of the first tenant, its answer, and the rows after it.
struct Request {
    command: &'static str,
    answer: &'static str,
    /// The same, by a batch that wants memory when it is done.
    failing: &'static str,
    after: &'static str,
}

/// Which of the two files is on a disk that stops.
#[derive(Clone, Copy, Debug)]
enum Stopping {
    Log,
    Database,
}

/// Where a stop falls.
#[derive(Clone, Copy, Debug, PartialEq, Eq)]
enum Stop {
    /// Before the commit: also a batch that wants memory in the end meets it.
    Before,
    /// In the commit.
    Inside,
    /// Behind it.
    After,
}

const REFUSED_EARLIER: &str = "Err(Unavailable(Disk))";

/// What the first tenant had before.
const BEFORE: &str = "\
North rows clock => 1 rows: 4
North rows transfer => 0 rows:
North rows status => 0 rows:
North rows history => 0 rows:
North rows failed => 0 rows:
North rows balance => 4 rows: [1, 0, 0, 0, 0] [2, 0, 0, 0, 0] [3, 0, 0, 0, 0] [4, 0, 0, 0, 0]";

/// What the other one has in any case.
const OTHERS: &str = "\
South rows clock => 1 rows: 4
South rows transfer => 0 rows:
South rows failed => 0 rows:
South rows account => 4 rows: (1, 7, 10, 0, 1) (2, 7, 10, 0, 2) (3, 7, 10, 10, 3) (4, 7, 10, 0, 4)
South rows balance => 4 rows: [1, 0, 0, 0, 0] [2, 0, 0, 0, 0] [3, 0, 0, 0, 0] [4, 0, 0, 0, 0]";

/// A pending transfer that is posted in part.
const POSTS: Request = Request {
    command: "North transfers 100: 1>2 100 pending; 101: post=100 40",
    answer: "clock 6: 0@5 0@6",
    failing: "North fail 100: 1>2 100 pending; 101: post=100 40",
    after: "\
North rows clock => 1 rows: 6
North rows transfer => 2 rows: ([100, 1, 2, 100, 0], 2, 5, 6) ([101, 1, 2, 40, 100], 4, 6, 6)
North rows status => 1 rows: (100, 1, 0)
North rows history => 4 rows: (5, [1, 100, 0, 0, 0]) (6, [1, 0, 40, 0, 0]) \
(5, [2, 0, 0, 100, 0]) (6, [2, 0, 0, 0, 40])
North rows failed => 0 rows:
North rows balance => 4 rows: [1, 0, 40, 0, 0] [2, 0, 0, 0, 40] [3, 0, 0, 0, 0] [4, 0, 0, 0, 0]",
};

/// A chain that falls, of which the clock and an id that failed are kept, or neither.
const FALLS: Request = Request {
    command: "North transfers 103: 1>2 1 linked; 104: 3>2 1",
    answer: "clock 6: 2@5 55@6",
    failing: "North fail 103: 1>2 1 linked; 104: 3>2 1",
    after: "\
North rows clock => 1 rows: 6
North rows transfer => 0 rows:
North rows status => 0 rows:
North rows history => 0 rows:
North rows failed => 1 rows: 104
North rows balance => 4 rows: [1, 0, 0, 0, 0] [2, 0, 0, 0, 0] [3, 0, 0, 0, 0] [4, 0, 0, 0, 0]",
};

/// A crash, and an opening.
const REOPENED: &str = "\
File crash => closed
File open => opened";

/// New files, of which one is on a disk that stops after so many calls.
fn bench<D: Faulty>(alloc: Global, (stopping, calls): (Stopping, u64)) -> Bench<D> {
    let (log, database) = match stopping {
        Stopping::Log => (Calls::First(calls), Calls::All),
        Stopping::Database => (Calls::All, Calls::First(calls)),
    };
    Bench::new(alloc, SMALL, log, database)
}

/// What is answered to a command on new files, if the base was made.
fn told<D: Faulty>(rt: &impl Abort, bench: &mut Bench<D>, command: &str) -> Option<String> {
    if other_answer(rt, bench, BASE).is_some() {
        return None;
    }
    Some(bench.answer(command).expect(rt, command))
}

/// The same, where a disk stops.
fn told_there<D: Faulty, R: Abort>(
    rt: &R,
    alloc: Global,
    stopping: (Stopping, u64),
    command: &str,
) -> Option<String> {
    let mut bench: Bench<D> = bench(alloc, stopping);
    let told = told(rt, &mut bench, command);
    bench.end();
    told
}

/// Whether the disk failed in a batch.
fn is_refused(answer: &str) -> bool {
    answer == "Unavailable(Disk)"
}

/// Whether the disk failed in the request, as is then told to every later one. Else its answer is
/// the right one.
fn was_refused<D: Faulty>(
    rt: &impl Abort,
    bench: &mut Bench<D>,
    answer: &str,
    request: &Request,
) -> bool {
    if is_refused(answer) {
        play(rt, bench, NOTHING);
        return true;
    }
    assert_eq!(rt; answer, request.answer);
    false
}

/// Whether an opening after the crash finds the rows after the request; else those before it.
fn was_kept<D: Faulty>(rt: &impl Abort, bench: &mut Bench<D>, request: &Request) -> bool {
    play(rt, bench, REOPENED);
    play(rt, bench, OTHERS);
    if other_answer(rt, bench, request.after).is_none() {
        return true;
    }
    play(rt, bench, BEFORE);
    false
}

/// Whether the disk failed in the request, and whether it was kept.
fn sent<D: Faulty>(rt: &impl Abort, bench: &mut Bench<D>, request: &Request) -> (bool, bool) {
    let answer = told(rt, bench, request.command).expect(rt, "no base");
    let was_refused = was_refused(rt, bench, &answer, request);
    (was_refused, was_kept(rt, bench, request))
}

/// The same, where a disk stops.
fn sent_there<D: Faulty, R: Abort>(
    rt: &R,
    alloc: Global,
    stopping: (Stopping, u64),
    request: &Request,
) -> (bool, bool) {
    let mut bench: Bench<D> = bench(alloc, stopping);
    let sent = sent(rt, &mut bench, request);
    bench.end();
    sent
}

/// Whether a batch that wants memory in the end meets the stop.
fn is_early<D: Faulty, R: Abort>(
    rt: &R,
    alloc: Global,
    stopping: (Stopping, u64),
    request: &Request,
) -> bool {
    let failing = told_there::<D, _>(rt, alloc, stopping, request.failing);
    failing.is_some_and(|told| told.as_str() == REFUSED_EARLIER)
}

/// Where the stop after so many calls falls.
fn stopped<D: Faulty, R: Abort>(
    rt: &R,
    alloc: Global,
    stopping: (Stopping, u64),
    request: &Request,
) -> Stop {
    let (was_refused, is_kept) = sent_there::<D, _>(rt, alloc, stopping, request);
    let is_early = is_early::<D, _>(rt, alloc, stopping, request);
    match (was_refused, is_early, is_kept) {
        (true, true, false) => Stop::Before,
        (true, false, _) => Stop::Inside,
        (false, false, true) => Stop::After,
        other => panic!(rt; "{stopping:?}: {other:?}"),
    }
}

/// Whether so many calls are too few to make the base and answer a command.
fn are_too_few<D: Faulty, R: Abort>(
    rt: &R,
    alloc: Global,
    stopping: (Stopping, u64),
    command: &str,
) -> bool {
    match told_there::<D, _>(rt, alloc, stopping, command) {
        Some(answer) => is_refused(&answer),
        None => true,
    }
}

/// The least number of calls with which the base is made and a command is answered, if it is below
/// 2048.
fn least<D: Faulty, R: Abort>(rt: &R, alloc: Global, stopping: Stopping, command: &str) -> u64 {
    let mut least: u64 = 0;
    for more in [1024, 512, 256, 128, 64, 32, 16, 8, 4, 2, 1u64] {
        let calls = least.saturating_add(more.saturating_sub(1));
        if are_too_few::<D, _>(rt, alloc, (stopping, calls), command) {
            least = least.saturating_add(more);
        }
    }
    least
}

/// Where a disk stops in a request's calls.
#[derive(Clone, Copy, Debug)]
enum Place {
    AtFirst,
    Between,
    AtLast,
    BehindAll,
}

impl Place {
    /// That of a stop after so many calls, where the request has those from a first one on.
    fn of(calls: u64, first: u64, kept: u64) -> Place {
        if calls == kept {
            Place::BehindAll
        } else if calls.saturating_add(1) == kept {
            Place::AtLast
        } else if calls == first {
            Place::AtFirst
        } else {
            Place::Between
        }
    }
}

/// Whether such a stop may fall there. The last call of the log is in the commit, that of the
/// database file, which is written where the log is long, in the commit or before it.
fn may_fall(stopping: Stopping, place: Place, stop: Stop) -> bool {
    match (place, stopping) {
        (Place::AtFirst, _) => stop == Stop::Before,
        (Place::AtLast, Stopping::Log) => stop == Stop::Inside,
        (Place::Between, _) | (Place::AtLast, Stopping::Database) => stop != Stop::After,
        (Place::BehindAll, _) => stop == Stop::After,
    }
}

/// Stops a disk at each call of a request, and behind it. Once a stop falls in the commit, no later
/// one falls before it.
fn stop_a_disk<D: Faulty, R: Abort>(rt: &R, alloc: Global, stopping: Stopping, request: &Request) {
    let first = least::<D, _>(rt, alloc, stopping, "North ready");
    let kept = least::<D, _>(rt, alloc, stopping, request.command);
    let mut is_inside = false;
    for calls in first..=kept {
        let place = Place::of(calls, first, kept);
        let found = stopped::<D, _>(rt, alloc, (stopping, calls), request);
        assert!(rt;
            may_fall(stopping, place, found) && !(is_inside && found == Stop::Before),
            "{stopping:?} after {calls}, {place:?}: {found:?}"
        );
        is_inside = found == Stop::Inside;
    }
}

#[test]
fn a_log_that_stops_in_a_batch(rt: HostRuntime) {
    stop_a_disk::<InMemory, _>(&rt, rt.alloc(), Stopping::Log, &POSTS);
}

#[test]
fn a_database_that_stops_in_a_batch(rt: HostRuntime) {
    stop_a_disk::<InMemory, _>(&rt, rt.alloc(), Stopping::Database, &POSTS);
}

#[test]
fn a_log_that_stops_where_a_chain_falls(rt: HostRuntime) {
    stop_a_disk::<InMemory, _>(&rt, rt.alloc(), Stopping::Log, &FALLS);
}

#[test]
fn a_database_that_stops_where_a_chain_falls(rt: HostRuntime) {
    stop_a_disk::<InMemory, _>(&rt, rt.alloc(), Stopping::Database, &FALLS);
}
