//! What an operator is told, and how long it waits.
use super::scene::{Allowed, Notes, Scene, Ticking};
use super::steps::Step::{Closes, Connects, Counts, Reads, Tells, Writes};
use super::steps::{Step, take_steps};
use mio::net::TcpListener;
use polling::{Batch, Peers, Read, Told, Written};
use std::net::{Ipv4Addr, SocketAddr, TcpStream};
use std::test::Fail;
use std::time::{Clock, Duration};

const LONG: u64 = 60_000;

const SHORT: u64 = 200;

// It rings each time that somebody comes to the listener.
const RINGS: [(Told, u64); 5] = [
    (Told::Joined, 0),
    (Told::Ready(0), 0),
    (Told::Nothing, 1),
    (Told::Nothing, 2),
    (Told::Ready(0), 2),
];

// Somebody comes to a listener twice, who is no client: where the client has come, where it is
// ready, behind each that comes, and where both were taken and the client sends again.
#[test]
fn rings_where_somebody_comes_to_what_is_watched(rt: HostRuntime) -> Result<(), Fail> {
    let clock = Ticking::new(0);
    let notes = Notes::new();
    let mut scene = Scene::new(&rt, &clock, &notes, Allowed(9, 9, LONG, LONG, LONG))?;
    let mut listener = TcpListener::bind(&rt, SocketAddr::from((Ipv4Addr::LOCALHOST, 0)))?;
    scene.sockets.watcher()?.watch(&mut listener)?;
    scene.connect(&rt, 0)?;
    let joined = (scene.told(0, 3), notes.rung.get());
    let ready = (scene.told(1, 3), notes.rung.get());
    assert_eq!(rt; scene.read_all(0), (0, Read::Waits));
    let _first = TcpStream::connect(&rt, listener.local_addr()?)?;
    let one = (scene.told(1, 1), notes.rung.get());
    let _second = TcpStream::connect(&rt, listener.local_addr()?)?;
    let two = (scene.told(1, 1), notes.rung.get());
    let _taken = (listener.accept()?, listener.accept()?);
    scene.send(&rt, 0, 4)?;
    let sent = (scene.told(1, 3), notes.rung.get());
    assert_eq!(rt; [joined, ready, one, two, sent], RINGS);
    assert_eq!(rt;
        (scene.read_all(0), notes.rung.get()),
        ((4, Read::Waits), 2)
    );
    Ok(())
}

// While a call is read a hundred waits take no hundred seconds.
#[test]
fn waits_for_nobody_while_the_operator_calls(rt: HostRuntime) -> Result<(), Fail> {
    let clock = Ticking::new(0);
    let notes = Notes::new();
    let mut scene = Scene::new(&rt, &clock, &notes, Allowed(9, 9, LONG, LONG, LONG))?;
    notes.is_busy.set(true);
    let begun = rt.monotonic()?;
    let told = scene.told(0, 100);
    let passed = rt.monotonic()?.saturating_sub(begun);
    assert!(rt; told == Told::Nothing && passed < Duration::from_secs(20));
    Ok(())
}

// One goes by itself, and one that is silent is late.
const COME_AND_GO: [Step; 15] = [
    Counts(0, 0, 0, 0),
    Connects(0),
    Connects(1),
    Tells(0, 3, Told::Joined),
    Counts(1, 1, 1, 0),
    Tells(1, 3, Told::Joined),
    Counts(2, 2, 2, 0),
    Tells(2, 3, Told::Ready(0)),
    Reads(0, 0, Read::Waits),
    Closes(1),
    Counts(1, 2, 2, 0),
    Tells(2, 9, Told::Late(0)),
    Closes(0),
    Counts(0, 2, 2, 1),
    Closes(0),
];

// Who is silent for longest makes room for a new one, and is late.
const MAKES_ROOM: [Step; 11] = [
    Connects(1),
    Tells(0, 3, Told::Joined),
    Tells(1, 3, Told::Ready(0)),
    Reads(0, 1, Read::Waits),
    Writes(0, 1, Written::Took(1)),
    Connects(0),
    Tells(1, 3, Told::Late(0)),
    Closes(0),
    Counts(0, 1, 1, 1),
    Tells(1, 3, Told::Joined),
    Counts(1, 1, 2, 1),
];

#[test]
fn counts_who_comes_and_goes(rt: HostRuntime) -> Result<(), Fail> {
    let silent = Allowed(9, 9, SHORT, LONG, LONG);
    take_steps(&rt, "comes and goes", 150, silent, &COME_AND_GO)?;
    let one = Allowed(1, 9, LONG, LONG, LONG);
    take_steps(&rt, "makes room", 0, one, &MAKES_ROOM)
}

// A turn lasts from when something is told until more is asked for: 700 milliseconds pass behind
// the first thing that is told, and 300 behind the second.
#[test]
fn notes_the_longest_turn(rt: HostRuntime) -> Result<(), Fail> {
    let clock = Ticking::new(0);
    let notes = Notes::new();
    let mut scene = Scene::new(&rt, &clock, &notes, Allowed(9, 9, LONG, LONG, LONG))?;
    scene.connect(&rt, 0)?;
    let joined = (scene.told(0, 3), notes.longest_turn.get());
    clock.pass(700);
    let ready = (scene.told(1, 3), notes.longest_turn.get());
    clock.pass(300);
    let last = (scene.told(1, 1), notes.longest_turn.get());
    let took = Duration::from_millis(700);
    assert_eq!(rt;
        [joined, ready, last],
        [
            (Told::Joined, Duration::ZERO),
            (Told::Ready(0), took),
            (Told::Nothing, took),
        ]
    );
    Ok(())
}

// Each reply is told as it begins, and none to who is gone.
#[test]
fn notes_replies(rt: HostRuntime) -> Result<(), Fail> {
    let clock = Ticking::new(0);
    let notes = Notes::new();
    let mut scene = Scene::new(&rt, &clock, &notes, Allowed(9, 9, LONG, LONG, LONG))?;
    scene.connect(&rt, 0)?;
    let joined = scene.told(0, 3);
    let first = scene.sockets.write(0, b"HTTP/1.1 first");
    let second = scene.sockets.write(0, b"HTTP/1.1 second");
    scene.sockets.shared(2);
    scene.sockets.answered(0, Some(Batch::Transfers), b"reply");
    scene.sockets.answered(0, None, b"another");
    scene.sockets.close(0);
    let third = scene.sockets.write(0, b"HTTP/1.1 third");
    assert_eq!(rt;
        (joined, first, second, third),
        (
            Told::Joined,
            Written::Took(14),
            Written::Took(15),
            Written::Broken
        )
    );
    assert_eq!(rt; (notes.answered(), notes.batches.get()), ((2, 2), (0, 1)));
    assert_eq!(rt; notes.marked.get(), 12);
    Ok(())
}

const IN_PARTS: &[u8] = b"HTTP/1.1 200 OK\r\ntransfer-encoding: chunked\r\n\r\n2\r\na\n\r\n";

// The first part is the beginning of the reply. Those behind it begin with the size of a chunk, as
// the last one does, and the next reply is told again.
#[test]
fn notes_a_reply_in_parts_once(rt: HostRuntime) -> Result<(), Fail> {
    let clock = Ticking::new(0);
    let notes = Notes::new();
    let mut scene = Scene::new(&rt, &clock, &notes, Allowed(9, 9, LONG, LONG, LONG))?;
    scene.connect(&rt, 0)?;
    let joined = scene.told(0, 3);
    assert_eq!(rt; joined, Told::Joined);
    let parts: [(&[u8], u64); 5] = [
        (IN_PARTS, 1),
        (b"2\r\nb\n\r\n", 1),
        (b"2\r\nc\n\r\n", 1),
        (b"0\r\n\r\n", 1),
        (IN_PARTS, 2),
    ];
    for (part, replies) in parts {
        let taken = scene.sockets.write(0, part);
        assert_eq!(rt; taken, Written::Took(part.len()));
        assert_eq!(rt; notes.answered().0, replies);
    }
    Ok(())
}
