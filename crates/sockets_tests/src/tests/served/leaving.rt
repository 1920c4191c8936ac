//! Clients that were written their last reply.
use super::scene::Allowed;
use super::steps::Step::{
    Again, Closes, Connects, Counts, HasMore, Hears, IsReset, Leaves, Reads, Sends, Shuts, Tells,
    Writes,
};
use super::steps::{Step, take_steps};
use polling::{Read, Told, Written};
use std::test::Fail;

const LONG: u64 = 60_000;

// More is sent than is read, and the reply is read all the same.
const SENDS_MORE: [Step; 9] = [
    Connects(100_000),
    Tells(0, 3, Told::Joined),
    Tells(1, 3, Told::Ready(0)),
    Writes(0, 3, Written::Took(3)),
    Closes(0),
    Sends(0, 1000),
    Shuts(0),
    Tells(1, 4, Told::Nothing),
    Hears(0, 3),
];

// Who sends on is dropped behind a second.
const SENDS_ON: [Step; 6] = [
    Connects(0),
    Tells(0, 3, Told::Joined),
    Closes(0),
    Hears(0, 0),
    Tells(1, 3, Told::Nothing),
    IsReset(0),
];

// Where nobody else is left whose turn it is, nothing is waited for: so it was said.
const LEFT_ALONE: [Step; 20] = [
    Connects(0),
    Connects(0),
    Connects(0),
    Tells(0, 3, Told::Joined),
    Tells(1, 3, Told::Joined),
    Tells(2, 3, Told::Joined),
    Tells(3, 3, Told::Ready(0)),
    Closes(0),
    Tells(3, 3, Told::Ready(1)),
    Reads(1, 0, Read::Waits),
    Tells(3, 3, Told::Ready(2)),
    Reads(2, 0, Read::Waits),
    Tells(3, 1, Told::Nothing),
    Sends(1, 1),
    Sends(0, 1),
    Tells(3, 2, Told::Ready(1)),
    Sends(2, 1),
    HasMore(true),
    Tells(3, 1, Told::Nothing),
    Tells(3, 1, Told::Ready(2)),
];

// A client that leaves with a reply unread resets its connection. It goes at once, though a message
// of it has had no turn.
const RESET: [Step; 15] = [
    Connects(0),
    Connects(7),
    Tells(0, 3, Told::Joined),
    Tells(1, 3, Told::Joined),
    Tells(2, 3, Told::Ready(0)),
    Reads(0, 0, Read::Waits),
    Tells(2, 3, Told::Ready(1)),
    Reads(1, 7, Read::Waits),
    Writes(1, 3, Written::Took(3)),
    Again(0),
    Leaves,
    Tells(2, 3, Told::Late(1)),
    Closes(1),
    Tells(2, 3, Told::Ready(0)),
    Counts(1, 2, 2, 0),
];

// The end of its input is no reset: what a client has sent is answered.
const SENDS_NO_MORE: [Step; 5] = [
    Connects(7),
    Shuts(0),
    Tells(0, 3, Told::Joined),
    Tells(1, 3, Told::Ready(0)),
    Reads(0, 7, Read::Ended),
];

#[test]
fn who_is_reset_goes_at_once(rt: HostRuntime) -> Result<(), Fail> {
    let allowed = Allowed(9, 9, LONG, LONG, LONG);
    take_steps(&rt, "reset", 0, allowed, &RESET)?;
    take_steps(&rt, "sends no more", 0, allowed, &SENDS_NO_MORE)
}

#[test]
fn reads_on_behind_a_last_reply(rt: HostRuntime) -> Result<(), Fail> {
    let allowed = Allowed(9, 9, LONG, LONG, LONG);
    take_steps(&rt, "sends more", 0, allowed, &SENDS_MORE)?;
    take_steps(&rt, "sends on", 1_000, allowed, &SENDS_ON)?;
    take_steps(&rt, "left alone", 0, allowed, &LEFT_ALONE)
}
