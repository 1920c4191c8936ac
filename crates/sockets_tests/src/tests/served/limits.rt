//! How long each may take, and how many there may be.
use super::scene::Allowed;
use super::steps::Step::{
    Again, Closes, Connects, Hears, Passes, Reads, Sends, Tells, WasTold, Writes,
};
use super::steps::{Step, take_steps};
use polling::{Read, Told, Written};
use std::test::Fail;

const LONG: u64 = 60_000;

const SHORT: u64 = 200;

// Who is silent is let go.
const SILENT: [Step; 7] = [
    Connects(0),
    Tells(0, 3, Told::Joined),
    Tells(1, 3, Told::Ready(0)),
    Reads(0, 0, Read::Waits),
    Tells(1, 3, Told::Late(0)),
    Closes(0),
    Hears(0, 0),
];

// So is one whose message takes too long. The second byte gives no more time.
const SLOW: [Step; 9] = [
    Connects(1),
    Tells(0, 3, Told::Joined),
    Tells(1, 3, Told::Ready(0)),
    Reads(0, 1, Read::Waits),
    Sends(0, 1),
    Tells(1, 3, Told::Ready(0)),
    Reads(0, 1, Read::Waits),
    Tells(1, 1, Told::Late(0)),
    Closes(0),
];

// Nor is who was told as ready, until it has its turn.
const TOLD: [Step; 18] = [
    Connects(1),
    Connects(1),
    Tells(0, 3, Told::Joined),
    Tells(1, 3, Told::Joined),
    Tells(2, 3, Told::Ready(0)),
    Reads(0, 1, Read::Waits),
    Tells(2, 3, Told::Ready(1)),
    Reads(1, 1, Read::Waits),
    Sends(0, 1),
    Tells(2, 3, Told::Ready(0)),
    Again(1),
    Tells(2, 1, Told::Ready(1)),
    Again(1),
    Tells(2, 1, Told::Ready(1)),
    Again(1),
    Tells(2, 1, Told::Ready(1)),
    Again(1),
    Tells(2, 1, Told::Ready(1)),
];

// An hour that something else took makes nobody late.
const STALLED: [Step; 6] = [
    Connects(1),
    Tells(0, 3, Told::Joined),
    Tells(1, 3, Told::Ready(0)),
    Reads(0, 1, Read::Waits),
    Passes(3_600_000),
    Tells(1, 1, Told::Nothing),
];

// Where there are as many as there may be, a new one waits until one is between messages, and that
// one goes.
const THREE: [Step; 14] = [
    Connects(1),
    Connects(1),
    Connects(0),
    Tells(0, 3, Told::Joined),
    Tells(1, 3, Told::Joined),
    Tells(2, 3, Told::Ready(0)),
    Reads(0, 1, Read::Waits),
    Tells(2, 3, Told::Ready(1)),
    Reads(1, 1, Read::Waits),
    Tells(2, 1, Told::Nothing),
    Writes(1, 1, Written::Took(1)),
    Tells(2, 3, Told::Late(1)),
    Closes(1),
    Tells(2, 3, Told::Joined),
];

// Who cannot be taken in is dropped: here since there is no number for it. However many are, that
// is told once, and once that all who waited are accepted again.
const CANNOT_JOIN: [Step; 11] = [
    Connects(0),
    Connects(0),
    Connects(0),
    Tells(u64::MAX, 2, Told::Nothing),
    WasTold(1, 0),
    Tells(0, 3, Told::Joined),
    Tells(1, 3, Told::Ready(0)),
    WasTold(1, 1),
    Connects(0),
    Tells(u64::MAX, 2, Told::Nothing),
    WasTold(2, 2),
];

/// Who is there, the ticks of the clock, what is allowed, and the steps.
const ALL: [(&str, u64, Allowed, &[Step]); 6] = [
    ("silent", 150, Allowed(9, 9, SHORT, LONG, LONG), &SILENT),
    ("slow", 150, Allowed(9, 9, LONG, SHORT, LONG), &SLOW),
    ("told", 45, Allowed(9, 9, LONG, SHORT, LONG), &TOLD),
    ("stalled", 0, Allowed(9, 9, SHORT, SHORT, SHORT), &STALLED),
    ("three", 0, Allowed(2, 9, LONG, LONG, LONG), &THREE),
    (
        "cannot join",
        150,
        Allowed(9, 9, LONG, LONG, LONG),
        &CANNOT_JOIN,
    ),
];

#[test]
fn keeps_to_its_limits(rt: HostRuntime) -> Result<(), Fail> {
    for (who, ticks, allowed, steps) in ALL {
        take_steps(&rt, who, ticks, allowed, steps)?;
    }
    Ok(())
}
