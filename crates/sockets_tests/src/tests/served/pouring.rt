//! A great reply.
use super::scene::{Allowed, Notes, Scene, Ticking};
use polling::{Peers, Told, Written};
use std::test::Fail;

const LONG: u64 = 60_000;

// What was written of a reply, how much of it came, and how often it was waited for.
#[derive(Clone, Copy)]
struct Poured {
    sent: usize,
    came: usize,
    waits: usize,
}

// Writes some of what is left of a reply to client 0, or where it waits has it read what has come.
// Says whether that went well.
fn pour(scene: &mut Scene<'_>, reply: &[u8], poured: &mut Poured) -> Result<bool, Fail> {
    let Some(rest) = reply.get(poured.sent..) else {
        return Ok(false);
    };
    match scene.sockets.write(0, rest) {
        Written::Took(count) => {
            poured.sent = poured.sent.saturating_add(count);
            Ok(true)
        }
        Written::Waits => {
            poured.waits = poured.waits.saturating_add(1);
            poured.came = poured.came.saturating_add(scene.hear(0)?);
            Ok(scene.told(1, 3) == Told::Ready(0))
        }
        Written::Broken => Ok(false),
    }
}

fn pour_all(scene: &mut Scene<'_>, reply: &[u8]) -> Result<Poured, Fail> {
    let mut poured = Poured {
        sent: 0,
        came: 0,
        waits: 0,
    };
    for _ in 0..10_000 {
        if poured.sent == reply.len() || !pour(scene, reply, &mut poured)? {
            return Ok(poured);
        }
    }
    Ok(poured)
}

// Whether the clients wait for what they read.
fn set_waiting(scene: &Scene<'_>, do_wait: bool) -> Result<(), Fail> {
    for client in &scene.clients {
        client.set_nonblocking(!do_wait)?;
    }
    Ok(())
}

#[test]
fn writes_a_great_reply_by_and_by(rt: HostRuntime) -> Result<(), Fail> {
    let mut reply = Vec::new(rt.alloc());
    reply.extend_from_slice(b"HTTP/1.1 ")?;
    reply.resize(8_000_000, 9u8)?;
    let clock = Ticking::new(0);
    let notes = Notes::new();
    let mut scene = Scene::new(&rt, &clock, &notes, Allowed(9, 9, LONG, LONG, LONG))?;
    scene.connect(&rt, 0)?;
    set_waiting(&scene, false)?;
    assert!(rt; scene.told(0, 3) == Told::Joined);
    let Poured { sent, came, waits } = pour_all(&mut scene, &reply)?;
    scene.sockets.close(0);
    set_waiting(&scene, true)?;
    let came = came.saturating_add(scene.hear(0)?);
    assert!(rt; waits > 0 && notes.answered() == (1, 0));
    assert_eq!(rt; (sent, came), (8_000_000, 8_000_000));
    Ok(())
}
