//! What is read, and what is written.
use super::scene::Allowed;
use super::steps::Step::{
    Again, Closes, Connects, HasMore, Hears, Reads, Sends, Shuts, Tells, Wants, Writes,
};
use super::steps::{Step, take_steps};
use polling::{Read, Told, Written};
use std::test::Fail;

const LONG: u64 = 60_000;

// Who is there is told, and what comes.
const ONE: [Step; 16] = [
    Connects(0),
    Tells(5, 3, Told::Joined),
    Tells(6, 3, Told::Ready(5)),
    Reads(5, 0, Read::Waits),
    Sends(0, 3),
    Tells(6, 3, Told::Ready(5)),
    Reads(5, 3, Read::Waits),
    Again(5),
    Again(5),
    Tells(6, 3, Told::Ready(5)),
    Writes(5, 2, Written::Took(2)),
    Shuts(0),
    Tells(6, 3, Told::Ready(5)),
    Reads(5, 0, Read::Ended),
    Closes(5),
    Hears(0, 2),
];

// Who asks for one turn after the other is told so, and is waited for twice between two waitings.
const ASKS_ON: [Step; 12] = [
    Connects(0),
    Tells(0, 3, Told::Joined),
    Tells(1, 1, Told::Ready(0)),
    HasMore(false),
    Again(0),
    HasMore(true),
    Tells(1, 1, Told::Ready(0)),
    Again(0),
    HasMore(false),
    Tells(1, 1, Told::Ready(0)),
    Again(0),
    HasMore(true),
];

// Of three long messages two have room. The third is not read before the first is answered.
const THREE_LONG: [Step; 20] = [
    Connects(70_000),
    Connects(80_000),
    Connects(90_000),
    Tells(0, 3, Told::Joined),
    Tells(1, 3, Told::Joined),
    Tells(2, 3, Told::Joined),
    Tells(3, 3, Told::Ready(0)),
    Wants(0, 70_000),
    Reads(0, 70_000, Read::Waits),
    Tells(3, 3, Told::Ready(1)),
    Wants(1, 80_000),
    Reads(1, 80_000, Read::Waits),
    Tells(3, 3, Told::Ready(2)),
    Wants(2, 90_000),
    Reads(2, 0, Read::Waits),
    Wants(2, 90_000),
    Writes(0, 5, Written::Took(5)),
    Tells(3, 3, Told::Ready(2)),
    Wants(2, 90_000),
    Reads(2, 90_000, Read::Waits),
];

// Behind one that waits for room nobody is let in before it, though there is room for a shorter
// one.
const SHORTER_BEHIND: [Step; 19] = [
    Connects(70_000),
    Connects(90_000),
    Connects(66_000),
    Tells(0, 3, Told::Joined),
    Tells(1, 3, Told::Joined),
    Tells(2, 3, Told::Joined),
    Tells(3, 3, Told::Ready(0)),
    Wants(0, 70_000),
    Reads(0, 70_000, Read::Waits),
    Tells(3, 3, Told::Ready(1)),
    Wants(1, 90_000),
    Reads(1, 0, Read::Waits),
    Tells(3, 3, Told::Ready(2)),
    Wants(2, 66_000),
    Reads(2, 0, Read::Waits),
    Closes(1),
    Tells(3, 3, Told::Ready(2)),
    Wants(2, 66_000),
    Reads(2, 66_000, Read::Waits),
];

// Where no head has come, 64 kB are read, and of a short message no more.
const NO_HEAD: [Step; 6] = [
    Connects(70_000),
    Tells(0, 3, Told::Joined),
    Tells(1, 3, Told::Ready(0)),
    Wants(0, 0),
    Reads(0, 65_536, Read::Waits),
    Reads(0, 0, Read::Waits),
];

// Who waits for room has all the time. His own begins with the room, here that of one who went.
const WAITS_FOR_ROOM: [Step; 16] = [
    Connects(70_000),
    Connects(80_000),
    Tells(0, 3, Told::Joined),
    Tells(1, 3, Told::Joined),
    Tells(2, 3, Told::Ready(0)),
    Wants(0, 70_000),
    Reads(0, 70_000, Read::Waits),
    Tells(2, 3, Told::Ready(1)),
    Wants(1, 90_000),
    Reads(1, 0, Read::Waits),
    Tells(2, 5, Told::Late(0)),
    Closes(0),
    Tells(2, 3, Told::Ready(1)),
    Wants(1, 90_000),
    Reads(1, 80_000, Read::Waits),
    Tells(2, 5, Told::Late(1)),
];

// A message longer than all room has all of it, and its time. It keeps nobody waiting for ever.
const LONGER_THAN_ALL: [Step; 14] = [
    Connects(80_000),
    Connects(68_000),
    Tells(0, 3, Told::Joined),
    Tells(1, 3, Told::Joined),
    Tells(2, 3, Told::Ready(0)),
    Wants(0, 90_000),
    Reads(0, 70_000, Read::Waits),
    Tells(2, 3, Told::Ready(1)),
    Wants(1, 69_000),
    Reads(1, 0, Read::Waits),
    Tells(2, 5, Told::Late(0)),
    Closes(0),
    Tells(2, 3, Told::Ready(1)),
    Reads(1, 68_000, Read::Waits),
];

/// What is done, the ticks of the clock, what is allowed, and the steps.
const ALL: [(&str, u64, Allowed, &[Step]); 7] = [
    ("one", 0, Allowed(9, 9, LONG, LONG, LONG), &ONE),
    ("asks on", 0, Allowed(9, 9, LONG, LONG, LONG), &ASKS_ON),
    (
        "three long ones",
        0,
        Allowed(9, 170_000, LONG, LONG, LONG),
        &THREE_LONG,
    ),
    (
        "a shorter one behind",
        0,
        Allowed(9, 140_000, LONG, LONG, LONG),
        &SHORTER_BEHIND,
    ),
    (
        "no head",
        0,
        Allowed(9, 170_000, LONG, LONG, LONG),
        &NO_HEAD,
    ),
    (
        "waits for room",
        150,
        Allowed(9, 100_000, LONG, 300, LONG),
        &WAITS_FOR_ROOM,
    ),
    (
        "longer than all room",
        150,
        Allowed(9, 70_000, LONG, 300, LONG),
        &LONGER_THAN_ALL,
    ),
];

#[test]
fn reads_and_writes_in_turns(rt: HostRuntime) -> Result<(), Fail> {
    for (what, ticks, allowed, steps) in ALL {
        take_steps(&rt, what, ticks, allowed, steps)?;
    }
    Ok(())
}
