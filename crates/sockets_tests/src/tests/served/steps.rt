//! Steps of a service and its clients, and what they must come to.
use super::scene::{Allowed, Notes, Scene, Ticking};
use polling::{Peers, Read, Told, Written};
use std::test::Fail;

// No message is told to be longer.
const LONGEST: u64 = 2_000_000;

/// A step. Clients have the places at which they connected, and beside them the numbers that they
/// are told under.
#[derive(Clone, Copy, Debug)]
pub enum Step {
    /// A client connects, and sends so many bytes.
    Connects(usize),
    /// A client sends so many bytes.
    Sends(usize, usize),
    /// A client sends no more.
    Shuts(usize),
    /// So many bytes come to a client up to the end.
    Hears(usize, usize),
    /// A client that sends on is reset.
    IsReset(usize),
    /// The client that connected last leaves, and reads nothing more.
    Leaves,
    /// This number is handed in, and in so many waits this is told.
    Tells(u64, u64, Told),
    /// A client is to be read whose message has so many bytes.
    Wants(u64, u64),
    /// So many bytes are read, and then this.
    Reads(u64, usize, Read),
    /// This comes of writing so many bytes.
    Writes(u64, usize, Written),
    Again(u64),
    /// Whether more is told without waiting.
    HasMore(bool),
    Closes(u64),
    /// So many milliseconds pass.
    Passes(u64),
    /// So often it was told that nobody is accepted, and that all who waited are again.
    WasTold(u64, u64),
    /// So many are connected, were at most, were taken in and were late.
    Counts(u64, u64, u64, u64),
    /// The operator asks to stop.
    Stops,
}

/// Takes steps of what has a name, by a clock that goes on so many milliseconds each time that it
/// is asked.
pub fn take_steps(
    rt: &HostRuntime,
    what: &str,
    ticks: u64,
    allowed: Allowed,
    steps: &[Step],
) -> Result<(), Fail> {
    let clock = Ticking::new(ticks);
    let notes = Notes::new();
    let mut scene = Scene::new(rt, &clock, &notes, allowed)?;
    for step in steps {
        if !is_taken(rt, &clock, &notes, &mut scene, *step)? {
            return Err(Fail::new(format_args!("{what}: {step:?}")));
        }
    }
    Ok(())
}

// Whether a step comes to what it must.
fn is_taken(
    rt: &HostRuntime,
    clock: &Ticking,
    notes: &Notes,
    scene: &mut Scene<'_>,
    step: Step,
) -> Result<bool, Fail> {
    match step {
        Step::WasTold(short, accepting) => {
            Ok((notes.short.get(), notes.accepting.get()) == (short, accepting))
        }
        Step::Counts(now, most, all, late) => {
            let counts = notes.counts.get();
            let (connected, accepted) = (counts.connected, counts.accepted);
            let told = (connected, counts.most_connected, accepted, counts.late);
            Ok(told == (now, most, all, late))
        }
        Step::Stops => {
            notes.is_stopping.set(true);
            Ok(true)
        }
        Step::Wants(client, bytes) => {
            scene.sockets.wants(client, bytes.min(LONGEST));
            Ok(true)
        }
        Step::Tells(fresh, waits, told) => Ok(scene.told(fresh, waits) == told),
        Step::Reads(client, bytes, end) => Ok(scene.read_all(client) == (bytes, end)),
        Step::Writes(client, bytes, written) => {
            let reply = Vec::from_elem(rt.alloc(), 9u8, bytes)?;
            Ok(scene.sockets.write(client, &reply) == written)
        }
        Step::Again(client) => {
            scene.sockets.again(client);
            Ok(true)
        }
        Step::HasMore(has_more) => Ok(scene.sockets.has_more() == has_more),
        Step::Closes(client) => {
            scene.sockets.close(client);
            Ok(true)
        }
        Step::Passes(milliseconds) => {
            clock.pass(milliseconds);
            Ok(true)
        }
        other => is_done(rt, scene, other),
    }
}

// The same of what clients do.
fn is_done(rt: &HostRuntime, scene: &mut Scene<'_>, step: Step) -> Result<bool, Fail> {
    match step {
        Step::Connects(bytes) => {
            scene.connect(rt, bytes)?;
            Ok(true)
        }
        Step::Sends(client, bytes) => {
            scene.send(rt, client, bytes)?;
            Ok(true)
        }
        Step::Shuts(client) => {
            scene.shut(client)?;
            Ok(true)
        }
        Step::Hears(client, bytes) => Ok(scene.hear(client)? == bytes),
        Step::IsReset(client) => Ok(scene.is_reset(client)),
        Step::Leaves => Ok(scene.clients.pop().is_some()),
        _ => Ok(false),
    }
}
