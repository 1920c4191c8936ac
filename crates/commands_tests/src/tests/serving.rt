//! Clients that are served at once by stores in memory, whose disks fail.

use super::firms::NO_TRANSFERS;
use super::homes::Notice::{Answers, Refused};
use super::homes::{Fails, Firms, InMemory, Notes, Notice, Nowhere, Refusing, TestDisk};
use super::orders::Silent;
use super::scripted::{Hand, Scripted};
use chain::InUse;
use command_texts::Fault;
use commands::{Home, Served, serve_store};
use service::Moments;
use sqlite_disk::Disk;
use std::alloc::{AllocError, Global};
use std::test::Fail;
use store::Store;

// The replies to batches of no transfers at these clocks, each behind a text. Before what a client
// is told stands a bar.
macro_rules! replies {
    ($($before:literal $clock:literal),*) => {
        concat!($(
            $before, "HTTP/1.1 200 OK\r\ncontent-length: 29\r\n",
            "content-type: application/json\r\n\r\n",
            "{\"clock\":\"", $clock, "\",\"results\":[]}"
        ),*)
    };
}

/// The replies to the first two batches of no transfers.
pub const AT_FIRST: &str = replies!("" "1000", "" "2000");

/// The replies to two batches of no transfers at one moment.
pub const AT_ONCE: &str = replies!("" "1000", "" "1000");

/// What a client is told where no call is answered.
pub const UNAVAILABLE: &str = concat!(
    "HTTP/1.1 503 Service Unavailable\r\ncontent-length: 23\r\n",
    "content-type: application/json\r\n\r\n{\"error\":\"unavailable\"}"
);

// One thousand for the first message, and one thousand more for each reply that was written since.
#[derive(Drop)]
pub struct Thousands<'a>(pub &'a Hand);

impl Moments for Thousands<'_> {
    ghost gives = { λ _ _ _. Unit {0} };

    fn moment(&mut self) -> u64 {
        self.0.replies().saturating_add(1).saturating_mul(1000)
    }
}

/// What two clients are told that send so many messages over a store, where so many seconds pass
/// with each turn, until all are replied to; nothing where the service does not end well.
pub fn exchange_over<D: Disk + Drop, H: Home<D>>(
    alloc: Global,
    home: &H,
    store: InUse<Store<D>>,
    clock: &Hand,
    seconds: u64,
    messages: (u64, u64),
) -> Result<Vec<u8>, AllocError> {
    let mut peers = Scripted::new(alloc, clock, seconds);
    peers.add(NO_TRANSFERS, messages.0)?;
    peers.add(NO_TRANSFERS, messages.1)?;
    let most = messages.0.saturating_add(messages.1);
    let mut moments = Thousands(clock);
    let (served, Silent) = serve_store(
        alloc,
        &mut peers,
        home,
        Some(store),
        &mut moments,
        clock,
        Silent,
        most,
    );
    match served {
        Ok(Served::Enough) => peers.heard(),
        _ => Ok(Vec::new(alloc)),
    }
}

// The ledgers of a firm, which are sound, or whose log fails at its next call.
fn some_store<D: Disk + Drop, F: Firms<D>>(firms: &F, are_sound: bool) -> Option<InUse<Store<D>>> {
    if are_sound {
        return firms.store(Fails::Never);
    }
    for calls in 0..48 {
        if let Some(store) = firms.store(Fails::FromThen(calls)) {
            return Some(store);
        }
    }
    None
}

// What two clients of such ledgers are told, where a second passes with each turn.
fn exchange_with<D: Disk + Drop, F: Firms<D>>(
    alloc: Global,
    firms: &F,
    are_sound: bool,
    home: &Nowhere,
    clock: &Hand,
    messages: (u64, u64),
) -> Result<Vec<u8>, Fail> {
    match some_store::<D, F>(firms, are_sound) {
        Some(store) => Ok(exchange_over(alloc, home, store, clock, 1, messages)?),
        None => Err(Fail::new(format_args!("no store"))),
    }
}

// The same, of ledgers in memory.
fn exchange(
    rt: &HostRuntime,
    are_sound: bool,
    home: &Nowhere,
    clock: &Hand,
    messages: (u64, u64),
) -> Result<Vec<u8>, Fail> {
    let firms = InMemory(rt.alloc());
    exchange_with::<TestDisk, InMemory>(rt.alloc(), &firms, are_sound, home, clock, messages)
}

// Each client has one message replied to a turn, whatever the other one sends.
#[test]
fn serves_clients_in_turn(rt: HostRuntime) -> Result<(), Fail> {
    let clock = Hand::new();
    let home = Nowhere(Notes::new(rt.alloc(), &clock));
    let told = exchange(&rt, true, &home, &clock, (3, 1))?;
    let want = replies!("|" "1000", "" "3000", "" "4000", "|" "2000");
    assert_eq!(rt; told.as_slice(), want.as_bytes());
    assert!(rt; home.0.are(&[]));
    Ok(())
}

#[test]
fn serves_nobody_for_no_replies(rt: HostRuntime) -> Result<(), Fail> {
    let clock = Hand::new();
    let home = Nowhere(Notes::new(rt.alloc(), &clock));
    let told = exchange(&rt, true, &home, &clock, (0, 0))?;
    assert_eq!(rt; told.as_slice(), b"||".as_slice());
    Ok(())
}

// A store's log fails at some call, and its home refuses so many openings, where so many seconds
// pass with each turn.
#[derive(Clone, Copy)]
struct Trial {
    is_once: bool,
    refusals: u64,
    seconds: u64,
    messages: (u64, u64),
    /// What the clients are told where the first message meets the fault, part by part.
    want: &'static [&'static str],
    /// What the home is told.
    notices: &'static [Notice],
}

const TRIALS: [Trial; 4] = [
    // The disk is well again at once: what comes next is answered, of the same client too.
    Trial {
        is_once: true,
        refusals: 2,
        seconds: 0,
        messages: (2, 1),
        want: &[UNAVAILABLE, replies!("" "3000", "|" "2000")],
        notices: &[],
    },
    // A store is opened anew.
    Trial {
        is_once: false,
        refusals: 0,
        seconds: 0,
        messages: (2, 1),
        want: &[UNAVAILABLE, replies!("" "3000", "|" "2000")],
        notices: &[],
    },
    // It is tried again behind one second and two more, while both clients keep their connections.
    // Its end is told as its beginning was.
    Trial {
        is_once: false,
        refusals: 2,
        seconds: 1,
        messages: (3, 3),
        want: &[
            UNAVAILABLE,
            UNAVAILABLE,
            replies!("" "5000"),
            "|",
            UNAVAILABLE,
            UNAVAILABLE,
            replies!("" "6000"),
        ],
        notices: &[Refused(Fault::Unreadable), Answers],
    },
    // The clock stands still behind an attempt that is refused.
    Trial {
        is_once: false,
        refusals: 1,
        seconds: 0,
        messages: (2, 1),
        want: &[UNAVAILABLE, UNAVAILABLE, "|", UNAVAILABLE],
        notices: &[Refused(Fault::Unreadable)],
    },
];

// Whether the first message meets a fault at some call, and each time all is as it is to be.
fn holds_with<D: Disk + Drop, F: Firms<D>>(
    alloc: Global,
    firms: &F,
    trial: Trial,
) -> Result<bool, AllocError> {
    let mut want = String::new(alloc);
    for part in trial.want {
        want.push_str(part)?;
    }
    let mut has_failed = false;
    for calls in 0..48 {
        let clock = Hand::new();
        let home = Refusing::new(firms, trial.refusals, Notes::new(alloc, &clock));
        let fails = if trial.is_once {
            Fails::Once(calls)
        } else {
            Fails::FromThen(calls)
        };
        let Some(store) = firms.store(fails) else {
            continue;
        };
        let told = exchange_over(alloc, &home, store, &clock, trial.seconds, trial.messages)?;
        let Some(behind) = told.as_slice().strip_prefix(b"|") else {
            return Ok(false);
        };
        if behind.starts_with(UNAVAILABLE.as_bytes()) {
            if behind != want.as_bytes() || !home.notes.are(trial.notices) {
                return Ok(false);
            }
            has_failed = true;
        }
    }
    Ok(has_failed)
}

// The same, of ledgers in memory.
fn holds(alloc: Global, trial: Trial) -> Result<bool, AllocError> {
    holds_with::<TestDisk, InMemory>(alloc, &InMemory(alloc), trial)
}

#[test]
fn serves_on_behind_a_fault(rt: HostRuntime) -> Result<(), Fail> {
    for (place, trial) in TRIALS.into_iter().enumerate() {
        assert!(rt; holds(rt.alloc(), trial)?, "trial {place}");
    }
    Ok(())
}

// A second passes with each turn. The first attempt is made once a message has met the fault.
#[test]
fn tries_again_behind_longer_and_longer_pauses(rt: HostRuntime) -> Result<(), Fail> {
    let clock = Hand::new();
    let home = Nowhere(Notes::new(rt.alloc(), &clock));
    let _told = exchange(&rt, false, &home, &clock, (100, 100))?;
    assert!(rt; home.0.were_asked(&[3, 4, 6, 10, 18, 34, 66, 126, 186]));
    assert!(rt; home.0.are(&[Refused(Fault::NotALedger)]));
    Ok(())
}
