//! What is told where the operator asks to stop.
use super::scene::{Allowed, Notes, Scene, Ticking};
use super::steps::Step::{Again, Connects, Counts, Reads, Sends, Stops, Tells, Writes};
use super::steps::{Step, take_steps};
use polling::{Peers, Read, Told, Written};
use std::test::Fail;

const LONG: u64 = 60_000;

// Who had sent something is told, and has another turn where it asks for one. Nobody is accepted,
// and what is sent later is not looked at.
const SENT_BEFORE: [Step; 20] = [
    Connects(0),
    Connects(0),
    Tells(0, 3, Told::Joined),
    Tells(1, 3, Told::Joined),
    Tells(2, 3, Told::Ready(0)),
    Reads(0, 0, Read::Waits),
    Tells(2, 3, Told::Ready(1)),
    Reads(1, 0, Read::Waits),
    Sends(1, 5),
    Connects(4),
    Stops,
    Tells(2, 1, Told::Ready(1)),
    Reads(1, 5, Read::Waits),
    Writes(1, 7, Written::Took(7)),
    Again(1),
    Sends(0, 3),
    Sends(1, 3),
    Tells(2, 1, Told::Ready(1)),
    Reads(1, 0, Read::Waits),
    Tells(2, 9, Told::Nothing),
];

// Behind its end nobody is served, whoever asks for a turn.
const ENDED: [Step; 10] = [
    Connects(2),
    Tells(0, 3, Told::Joined),
    Tells(1, 3, Told::Ready(0)),
    Reads(0, 2, Read::Waits),
    Stops,
    Tells(1, 1, Told::Nothing),
    Connects(2),
    Again(0),
    Tells(1, 9, Told::Nothing),
    Counts(1, 1, 1, 0),
];

#[test]
fn serves_who_had_sent_something_and_then_nobody(rt: HostRuntime) -> Result<(), Fail> {
    let allowed = Allowed(9, 9, LONG, LONG, LONG);
    take_steps(&rt, "sent before", 0, allowed, &SENT_BEFORE)?;
    take_steps(&rt, "ended", 0, allowed, &ENDED)
}

// A client that comes before the end asks for another turn in each and sends on, until nothing is
// told.
// The clock goes on by 150 milliseconds where it is asked: in less than seven turns a second
// passes.
#[test]
fn ends_behind_a_second_though_one_sends_on(rt: HostRuntime) -> Result<(), Fail> {
    let clock = Ticking::new(150);
    let notes = Notes::new();
    let mut scene = Scene::new(&rt, &clock, &notes, Allowed(9, 9, LONG, LONG, LONG))?;
    scene.connect(&rt, 10)?;
    assert!(rt; scene.told(0, 3) == Told::Joined);
    notes.is_stopping.set(true);
    let mut turns: u32 = 0;
    for _ in 0..100 {
        if scene.sockets.told(1) != Told::Ready(0) {
            break;
        }
        scene.send(&rt, 0, 10)?;
        let _ = scene.read_all(0);
        scene.sockets.again(0);
        turns = turns.saturating_add(1);
    }
    assert!(rt; turns > 3 && turns < 8 && scene.told(1, 9) == Told::Nothing);
    Ok(())
}

// Writes a reply to client 0 until it waits, and says how much was taken.
fn fill(scene: &mut Scene<'_>, reply: &[u8]) -> usize {
    let mut sent = 0usize;
    for _ in 0..1000 {
        let Some(rest) = reply.get(sent..) else {
            return sent;
        };
        match scene.sockets.write(0, rest) {
            Written::Took(count) if count > 0 => sent = sent.saturating_add(count),
            _ => return sent,
        }
    }
    sent
}

// Writes on while client 0 is told to be ready, and says how much is taken of a reply in all. It
// reads what has come, or does not.
fn write_on(scene: &mut Scene<'_>, reply: &[u8], taken: usize, reads: bool) -> Result<usize, Fail> {
    let mut sent = taken;
    for _ in 0..1000 {
        if reads {
            let _ = scene.hear(0)?;
        }
        if scene.sockets.told(1) != Told::Ready(0) {
            return Ok(sent);
        }
        if let Some(rest) = reply.get(sent..) {
            sent = sent.saturating_add(fill(scene, rest));
        }
    }
    Ok(sent)
}

// How much is taken of a reply before it is asked to stop, when client 0 has not taken all, and in
// all.
fn write_all(
    rt: &HostRuntime,
    scene: &mut Scene<'_>,
    notes: &Notes,
    reads: bool,
) -> Result<(usize, usize), Fail> {
    let reply = Vec::from_elem(rt.alloc(), 9u8, 8_000_000)?;
    scene.connect(rt, 0)?;
    for client in &scene.clients {
        client.set_nonblocking(true)?;
    }
    if scene.told(0, 3) != Told::Joined || scene.told(1, 3) != Told::Ready(0) {
        return Err(Fail::new(format_args!("nobody has joined")));
    }
    let taken = fill(scene, &reply);
    notes.is_stopping.set(true);
    Ok((taken, write_on(scene, &reply, taken, reads)?))
}

#[test]
fn waits_for_who_has_not_taken_all_of_a_reply(rt: HostRuntime) -> Result<(), Fail> {
    let clock = Ticking::new(0);
    let notes = Notes::new();
    let mut scene = Scene::new(&rt, &clock, &notes, Allowed(9, 9, LONG, LONG, LONG))?;
    let (_, sent) = write_all(&rt, &mut scene, &notes, true)?;
    assert_eq!(rt; (sent, scene.told(1, 9)), (8_000_000, Told::Nothing));
    Ok(())
}

// Nobody is waited for longer than a second, here by a clock that goes on by a third of one.
#[test]
fn waits_no_longer_than_a_second(rt: HostRuntime) -> Result<(), Fail> {
    let clock = Ticking::new(350);
    let notes = Notes::new();
    let mut scene = Scene::new(&rt, &clock, &notes, Allowed(9, 9, LONG, LONG, LONG))?;
    let (taken, sent) = write_all(&rt, &mut scene, &notes, false)?;
    assert!(rt; taken <= sent && sent < 8_000_000 && scene.told(1, 9) == Told::Nothing);
    Ok(())
}
