//! Connections over a store: several messages, ends, and writers that fail.
ghost use Rattle.std.specs.Prelude.{◌≡◌};

use super::disks::{Faulty, NEVER, TestDisk, TestStore, new_store, shut};
use super::messages::{asked, wanted};
use super::scripts::runs;
use chain::Ledgers;
use failing_streams::Narrow;
use records::Streamed;
use service::{Moments, ServeFault, serve};
use sqlite_disk::Disk;
use std::alloc::{AllocError, Global};
use std::process::Abort;
use std::test::Fail;

/// Gives 0 and then every thousandth nanosecond.
#[derive(Drop)]
struct Thousands(u64);

impl Moments for Thousands {
    ghost gives = { λ old moment new. moment ≡ old.0 };

    fn moment(&mut self) -> u64 {
        let moment = self.0;
        self.0 = moment.saturating_add(1000);
        moment
    }
}

/// Room for all that is written.
const ALL: usize = 10_000;

/// A connection of one tenant: its messages, all but so many bytes of which come, the most replies,
/// the room of its writer, the replies that are written into it, and how it ends.
struct Connection {
    tenant: &'static str,
    messages: &'static [&'static str],
    lost: usize,
    most: u64,
    room: usize,
    replies: &'static [&'static str],
    ended: Result<u64, ServeFault>,
}

const NO_TRANSFERS: &str = "POST /transfers []";

const NONE_DONE: &str = r#"{"clock":"4","results":[]}"#;

static CONNECTIONS: [Connection; 5] = [
    Connection {
        tenant: "0",
        messages: &[NO_TRANSFERS, "POST /x"],
        lost: 0,
        most: 9,
        room: ALL,
        replies: &[NONE_DONE, "no_route 404 Not Found"],
        ended: Ok(2),
    },
    Connection {
        tenant: "1",
        messages: &[NO_TRANSFERS, "POST /x"],
        lost: 0,
        most: 1,
        room: ALL,
        replies: &[NONE_DONE],
        ended: Ok(1),
    },
    Connection {
        tenant: "2",
        messages: &[NO_TRANSFERS, NO_TRANSFERS],
        lost: 1,
        most: 9,
        room: ALL,
        replies: &[NONE_DONE, "truncated 400 Bad Request"],
        ended: Ok(2),
    },
    Connection {
        tenant: "3",
        messages: &["transfers 100 1 2 10"],
        lost: 0,
        most: 9,
        room: 0,
        replies: &["0@5"],
        ended: Err(ServeFault::Write(0)),
    },
    Connection {
        tenant: "4",
        messages: &["transfers 100 1 2 10", NO_TRANSFERS],
        lost: 0,
        most: 9,
        room: 40,
        replies: &["0@5"],
        ended: Err(ServeFault::Write(0)),
    },
];

/// The tenants, each with its four accounts.
const BASES: &str = "tenant 0 = added
tenant 1 = added
tenant 2 = added
tenant 3 = added
tenant 4 = added
0@0 base = 0@1 0@2 0@3 0@4
1@0 base = 0@1 0@2 0@3 0@4
2@0 base = 0@1 0@2 0@3 0@4
3@0 base = 0@1 0@2 0@3 0@4
4@0 base = 0@1 0@2 0@3 0@4";

/// What became of the transfers whose reply was not told.
const DONE_UNTOLD: &str = "3@0 transfers 100 1 2 10 = 18@6
4@0 transfers 100 1 2 10 = 18@6";

/// What is written into so much room, and how it ends.
fn served<L: Ledgers>(
    alloc: Global,
    ledgers: &mut L,
    input: &[u8],
    limits: (usize, u64),
) -> (Vec<u8>, Result<u64, ServeFault>) {
    let (room, most) = limits;
    let mut reader = Streamed::new(input);
    let mut writer = Streamed::new(Narrow {
        taken: Vec::new(alloc),
        piece: usize::MAX,
        room,
        fails: true,
    });
    let ended = serve(
        alloc,
        ledgers,
        &mut reader,
        &mut writer,
        &mut Thousands(0),
        most,
    );
    let Narrow { taken, .. } = writer.into_inner();
    (taken, ended)
}

/// The messages of a connection, one behind the other.
fn input_of(alloc: Global, connection: &Connection) -> Result<Vec<u8>, Fail> {
    let mut input = String::new(alloc);
    for text in connection.messages {
        input.push_str(&asked(alloc, connection.tenant, text)?)?;
    }
    let mut input = input.into_bytes();
    for _ in 0..connection.lost {
        input.pop();
    }
    Ok(input)
}

/// The replies that are to be written, as far as there is room.
fn output_of(alloc: Global, connection: &Connection) -> Result<Vec<u8>, AllocError> {
    let mut output = String::new(alloc);
    for text in connection.replies {
        output.push_str(&wanted(alloc, text)?)?;
    }
    let mut output = output.into_bytes();
    output.truncate(connection.room);
    Ok(output)
}

/// Serves a connection, and looks at what is written.
fn serves<L: Ledgers>(
    rt: &impl Abort,
    alloc: Global,
    ledgers: &mut L,
    connection: &Connection,
) -> Result<(), Fail> {
    let input = input_of(alloc, connection)?;
    let limits = (connection.room, connection.most);
    let (written, ended) = served(alloc, ledgers, &input, limits);
    assert_eq!(rt; ended, connection.ended);
    let output = output_of(alloc, connection)?;
    assert_eq!(rt; written.as_slice(), output.as_slice());
    Ok(())
}

/// Serves all connections, between the two scripts.
fn serves_all<D: Disk + Drop>(
    rt: &impl Abort,
    alloc: Global,
    store: &mut TestStore<D>,
) -> Result<(), Fail> {
    runs(rt, alloc, store, BASES, false)?;
    for connection in &CONNECTIONS {
        serves(rt, alloc, store, connection)?;
    }
    runs(rt, alloc, store, DONE_UNTOLD, false)
}

/// The same, over disks of their own.
fn serves_on<D: Faulty, R: Abort>(rt: &R, alloc: Global) -> Result<(), Fail> {
    let mut store: TestStore<D> = new_store(alloc, NEVER, NEVER)?;
    let ended = serves_all(rt, alloc, &mut store);
    shut(store);
    ended
}

#[test]
fn serves_connections(rt: HostRuntime) -> Result<(), Fail> {
    serves_on::<TestDisk, _>(&rt, rt.alloc())
}
