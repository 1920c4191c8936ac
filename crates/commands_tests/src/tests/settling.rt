//! Holds that are due are released while clients are served.
ghost use Rattle.std.specs.Prelude.{⊤};

use super::firms::{KEY, LOOKUP, Messages, NO_TRANSFERS, OF_OTHER, OTHER_KEY, POST_OF_HOLD};
use super::homes::{Fails, Firms, InMemory, Notes, Nowhere, TestDisk};
use super::orders::Silent;
use super::scripted::{Hand, Scripted};
use chain::InUse;
use commands::{Served, serve_store};
use service::{Moments, respond};
use sqlite_disk::Disk;
use std::alloc::{AllocError, Global};
use std::io;
use std::test::Fail;
use std::time::{Clock, Duration};
use store::Store;
use tenants::{Key, TenantName, digest};

/// The moments of a clock that is set by hand.
#[derive(Drop)]
struct ByHand<'a>(&'a Hand);

impl Moments for ByHand<'_> {
    ghost gives = { λ _ _ _. ⊤ };

    fn moment(&mut self) -> u64 {
        self.0.seconds().saturating_mul(1_000_000_000)
    }
}

/// The same moment each time.
#[derive(Drop)]
pub struct At(pub u64);

impl Moments for At {
    ghost gives = { λ _ _ _. ⊤ };

    fn moment(&mut self) -> u64 {
        self.0
    }
}

/// A clock that stands still: by it the pause behind the first look for what is due never ends.
#[derive(Drop)]
struct Still;

impl Clock for Still {
    fn monotonic(&self) -> io::Result<Duration> {
        Ok(Duration::ZERO)
    }

    fn since_1970(&self) -> io::Result<Duration> {
        Ok(Duration::ZERO)
    }
}

/// A message of the firm: so many holds of 1 from account 1 to account 2, each for a second, with
/// the ids from 1000 on.
fn holds(alloc: Global, many: u64) -> Result<String, AllocError> {
    let mut body = String::new(alloc);
    for place in 0..many {
        let front = if place == 0 { "[" } else { "," };
        let id = 1000_u64.saturating_add(place);
        let hold = format!(in alloc;
            "{front}{{\"id\":\"{id}\",\"debit_account_id\":\"1\",\"credit_account_id\":\"2\",\
            \"amount\":\"1\",\"ledger\":7,\"code\":1,\"flags\":2,\"timeout\":1}}"
        )?;
        body.push_str(hold.as_str())?;
    }
    body.push_str("]")?;
    let (size, body) = (body.len(), body.as_str());
    format!(in alloc;
        "POST /transfers HTTP/1.1\r\nx-ledger-key: {KEY}\r\ncontent-length: {size}\r\n\r\n{body}"
    )
}

/// The ledgers of the firm, which has sent so many holds at the moment 0, and of another one.
fn with_holds<D: Disk + Drop, F: Firms<D>>(
    alloc: Global,
    firms: &F,
    many: u64,
) -> Option<InUse<Store<D>>> {
    let mut store = firms.store(Fails::Never)?;
    Messages::PostedInPart.send(alloc, &mut store);
    let Ok(message) = holds(alloc, many) else {
        return None;
    };
    let _reply = respond(alloc, &mut store, message.as_bytes(), 0);
    let name = TenantName::read("other")?;
    let key = Key::read(OTHER_KEY.as_bytes())?;
    let _added = store.backend.add_tenant(&name, &digest(&key));
    Some(store)
}

/// What clients hear who send these messages, so many times each, where so many holds are there.
/// With each turn a second passes.
fn heard_with<D: Disk + Drop, F: Firms<D>, K: Clock, C: Moments>(
    alloc: Global,
    firms: &F,
    many: u64,
    hand: &Hand,
    clock: &K,
    moments: &mut C,
    clients: &[(&str, u64)],
) -> Result<Vec<u8>, Fail> {
    let Some(store) = with_holds::<D, F>(alloc, firms, many) else {
        return Err(Fail::new(format_args!("no store")));
    };
    let home = Nowhere(Notes::new(alloc, hand));
    let mut peers = Scripted::new(alloc, hand, 1);
    let mut most: u64 = 0;
    for (message, times) in clients {
        peers.add(message, *times)?;
        most = most.saturating_add(*times);
    }
    let (served, Silent) = serve_store(
        alloc,
        &mut peers,
        &home,
        Some(store),
        moments,
        clock,
        Silent,
        most,
    );
    match served {
        Ok(Served::Enough) => Ok(peers.heard()?),
        _ => Err(Fail::new(format_args!("the service has ended"))),
    }
}

/// The same of ledgers in memory, which have the holds released that are due, or not.
fn heard(
    rt: &HostRuntime,
    many: u64,
    is_settling: bool,
    clients: &[(&str, u64)],
) -> Result<Vec<u8>, Fail> {
    let alloc = rt.alloc();
    let hand = Hand::new();
    let firms = InMemory(alloc);
    let moments = &mut ByHand(&hand);
    if is_settling {
        heard_with::<TestDisk, _, _, _>(alloc, &firms, many, &hand, &hand, moments, clients)
    } else {
        heard_with::<TestDisk, _, _, _>(alloc, &firms, many, &hand, &Still, moments, clients)
    }
}

/// What account 1 has pending, reply by reply.
fn pending_in(alloc: Global, heard: &str) -> Result<Vec<u64>, Fail> {
    let mut sums = Vec::new(alloc);
    for (place, part) in heard.split("\"debits_pending\":\"").enumerate() {
        if place > 0 {
            let number = part.split('"').next().unwrap_or("");
            sums.push(number.parse().unwrap_or(u64::MAX))?;
        }
    }
    Ok(sums)
}

// Nobody sends a batch. Before a turn 200 are released, or none.
#[test]
fn many_are_released_in_pieces(rt: HostRuntime) -> Result<(), Fail> {
    let heard = heard(&rt, 1000, true, &[(LOOKUP, 40)])?;
    let sums = pending_in(rt.alloc(), str::from_utf8(heard.as_slice())?)?;
    assert_eq!(rt; sums.len(), 40);
    let mut left = 1000;
    for sum in &sums {
        assert!(rt; *sum == left || sum.saturating_add(200) == left);
        left = *sum;
    }
    assert_eq!(rt; left, 0);
    Ok(())
}

// The first hold is due at the second 1, and the moment is always a nanosecond before that.
#[test]
fn none_is_released_that_is_not_due(rt: HostRuntime) -> Result<(), Fail> {
    let alloc = rt.alloc();
    let hand = Hand::new();
    let (firms, moments) = (InMemory(alloc), &mut At(999_999_999));
    let clients = &[(LOOKUP, 40)];
    let heard = heard_with::<TestDisk, _, _, _>(
        alloc, &firms, 1000, &hand, &hand, moments, clients,
    )?;
    let sums = pending_in(rt.alloc(), str::from_utf8(heard.as_slice())?)?;
    assert_eq!(rt; sums.len(), 40);
    for sum in &sums {
        assert_eq!(rt; *sum, 1000);
    }
    Ok(())
}

/// The clock that the first reply tells behind the bar with a number.
fn clock_told(heard: &str, client: usize) -> Option<u64> {
    let told = heard.split('|').nth(client)?;
    let (_, behind) = told.split_once("\"clock\":\"")?;
    behind.split('"').next()?.parse().ok()
}

// Both batches are there at the second 2. Four pieces are to be released before the fifth and last,
// each at another turn.
#[test]
fn a_batch_waits_for_the_pieces_before_it(rt: HostRuntime) -> Result<(), Fail> {
    let clients = [(NO_TRANSFERS, 1), (OF_OTHER, 1)];
    let heard = heard(&rt, 1000, true, &clients)?;
    let text = str::from_utf8(heard.as_slice())?;
    let (firm, other) = (clock_told(text, 1), clock_told(text, 2));
    assert_eq!(rt; other, Some(4_000_000_000));
    assert!(rt; firm >= Some(8_000_000_000));
    Ok(())
}

// The hold that is posted is due by then, and has been released or not. No batch is put off here.
#[test]
fn batches_are_answered_as_without_it(rt: HostRuntime) -> Result<(), Fail> {
    for clients in [
        [(NO_TRANSFERS, 9), (POST_OF_HOLD, 2), (OF_OTHER, 9)],
        [(OF_OTHER, 20), (OF_OTHER, 20), (POST_OF_HOLD, 9)],
    ] {
        let with = heard(&rt, 100, true, &clients)?;
        let without = heard(&rt, 100, false, &clients)?;
        assert_eq!(rt; with.as_slice(), without.as_slice());
    }
    Ok(())
}
