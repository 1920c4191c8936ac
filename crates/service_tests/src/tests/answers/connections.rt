//! Connections: several messages, ends and faults.
ghost use Rattle.std.specs.Prelude.{◌≡◌};

use super::messages::{CUT_SHORT, good, post, wanted, written};
use super::scripts::{Answers, base, parts};
use crate::tests::asserting::same;
use crate::tests::firms::Firms;
use crate::tests::messages::{BATCH, FIRST};
use failing_streams::{Narrow, Pieces};
use records::Streamed;
use service::{Moments, ServeFault};
use std::alloc::{AllocError, Global};
use std::process::Abort;
use std::test::Fail;

/// Gives a first moment, and then every thousandth nanosecond.
#[derive(Drop)]
pub(crate) struct Thousands(pub(crate) u64);

impl Moments for Thousands {
    ghost gives = { λ old moment new. moment ≡ old.0 };

    fn moment(&mut self) -> u64 {
        let moment = self.0;
        self.0 = moment.saturating_add(1000);
        moment
    }
}

/// Bytes that are sent, behind which the connection ends, or fails.
fn sender(bytes: &[u8], fails: bool) -> Pieces<'_> {
    Pieces {
        bytes,
        piece: usize::MAX,
        fails,
    }
}

/// Room for all that is written.
const ALL: usize = 10_000;

/// What is written into a connection, how it ends, and what is not read. It has so much room, and
/// is served from a first moment, until so many replies are made.
fn serve<'a>(
    alloc: Global,
    firms: &mut Firms,
    sender: Pieces<'a>,
    (room, moment, most): (usize, u64, u64),
) -> (Vec<u8>, Result<u64, ServeFault>, &'a [u8]) {
    let mut reader = Streamed::new(sender);
    let mut writer = Streamed::new(Narrow {
        taken: Vec::new(alloc),
        piece: usize::MAX,
        room,
        fails: true,
    });
    let ended = firms.serve(&mut reader, &mut writer, &mut Thousands(moment), most);
    let Narrow { taken, .. } = writer.into_inner();
    let Pieces { bytes, .. } = reader.into_inner();
    (taken, ended, bytes)
}

const DONE: &str = concat!(
    "HTTP/1.1 200 OK\r\ncontent-length: 29\r\ncontent-type: application/json\r\n\r\n",
    "{\"clock\":\"1000\",\"results\":[]}"
);

const DONE_LATER: &str = concat!(
    "HTTP/1.1 200 OK\r\ncontent-length: 29\r\ncontent-type: application/json\r\n\r\n",
    "{\"clock\":\"2000\",\"results\":[]}"
);

const NO_ROUTE: &str = concat!(
    "HTTP/1.1 404 Not Found\r\ncontent-length: 20\r\ncontent-type: application/json\r\n\r\n",
    "{\"error\":\"no_route\"}"
);

const TRUNCATED: &str = concat!(
    "HTTP/1.1 400 Bad Request\r\ncontent-length: 21\r\ncontent-type: application/json\r\n\r\n",
    "{\"error\":\"truncated\"}"
);

/// A message to a path that leads nowhere.
const ASTRAY: &str = concat!(
    "POST /x HTTP/1.1\r\nx-ledger-key: ",
    "0000000000000000000000000000000000000000000000000000000000000000",
    "\r\ncontent-length: 0\r\n\r\n"
);

/// The same, and a batch, each as the last message of its connection.
const LAST_ASTRAY: &str = concat!(
    "POST /x HTTP/1.1\r\nconnection: close\r\nx-ledger-key: ",
    "0000000000000000000000000000000000000000000000000000000000000000",
    "\r\ncontent-length: 0\r\n\r\n"
);

const LAST: &str = concat!(
    "POST /transfers HTTP/1.1\r\nx-ledger-key: ",
    "0000000000000000000000000000000000000000000000000000000000000000",
    "\r\nConnection: Upgrade ,\tCLOSE\r\ncontent-length: 2\r\n\r\n[]"
);

/// A statement without a key, whose headers name other options.
const KEYLESS: &str = "GET /statement/1 HTTP/1.1\r\nconnection: keep-alive, closed\r\n\r\n";

const UNKNOWN_KEY: &str = concat!(
    "HTTP/1.1 401 Unauthorized\r\ncontent-length: 23\r\ncontent-type: application/json\r\n\r\n",
    "{\"error\":\"unknown_key\"}"
);

/// What is sent, how many replies are asked for at most, the replies, and what is left of what was
/// sent.
type Connection = (
    &'static [&'static str],
    u64,
    &'static [&'static str],
    &'static [&'static str],
);

/// A moment is asked for each message.
static TO_THE_END: [Connection; 9] = [
    (&[BATCH, ASTRAY], 9, &[DONE, NO_ROUTE], &[]),
    (&[BATCH, ASTRAY], 2, &[DONE, NO_ROUTE], &[]),
    (&[BATCH, ASTRAY], 1, &[DONE], &[ASTRAY]),
    (&[BATCH, ASTRAY], 0, &[], &[BATCH, ASTRAY]),
    (&[BATCH, BATCH], 9, &[DONE, DONE_LATER], &[]),
    (&[BATCH, CUT_SHORT], 9, &[DONE, TRUNCATED], &[]),
    (&[BATCH, LAST, ASTRAY], 9, &[DONE, DONE_LATER], &[ASTRAY]),
    (&[LAST_ASTRAY, BATCH], 9, &[NO_ROUTE], &[BATCH]),
    (&[KEYLESS, BATCH], 9, &[UNKNOWN_KEY, DONE_LATER], &[]),
];

/// No byte is read behind the last message: the reader would fail behind its last byte.
static IN_PART: [Connection; 6] = [
    (&[BATCH, ASTRAY], 0, &[], &[BATCH, ASTRAY]),
    (&[BATCH, ASTRAY], 1, &[DONE], &[ASTRAY]),
    (&[BATCH, ASTRAY, BATCH], 2, &[DONE, NO_ROUTE], &[BATCH]),
    (&[BATCH, ASTRAY], 2, &[DONE, NO_ROUTE], &[]),
    (&[LAST, ASTRAY], 9, &[DONE], &[ASTRAY]),
    (&[BATCH, LAST_ASTRAY], 9, &[DONE, NO_ROUTE], &[]),
];

/// Heads that are refused by themselves, whatever would come behind them: the reader would fail.
const REFUSED_HEADS: &str = "\
|| => bad_head 400 Bad Request
POST /transfers HTTP/1.1|content-length: 05|| => bad_head 400 Bad Request
POST /nowhere HTTP/1.1|| => length_required 411 Length Required
POST /transfers HTTP/1.1|content-length: 2097153|| => body_too_large 413 Payload Too Large
POST /x HTTP/1.1|content-length: 18446744073709551618|| => body_too_large 413 Payload Too Large";

fn together(alloc: Global, texts: &[&str]) -> Result<String, AllocError> {
    let mut all = String::new(alloc);
    for text in texts {
        all.push_str(text)?;
    }
    Ok(all)
}

/// Serves a new firm's connection, and looks at what is written into it, how it ends, and what is
/// left.
fn comes_to(
    rt: &impl Abort,
    alloc: Global,
    (sender, most): (Pieces<'_>, u64),
    (told, ended, left): (&[u8], Result<u64, ServeFault>, &[u8]),
) -> Result<(), Fail> {
    let mut firms = Firms::with(alloc, &[FIRST])?;
    let served = serve(alloc, &mut firms, sender, (ALL, 1000, most));
    same(rt, "the connection", served.1, ended);
    same(rt, "what is written", served.0.as_slice(), told);
    same(rt, "what is left", served.2, left);
    Ok(())
}

fn is_served(
    rt: &impl Abort,
    alloc: Global,
    fails: bool,
    (sent, most, told, left): Connection,
) -> Result<(), Fail> {
    let count = told.len() as u64;
    let sent = together(alloc, sent)?;
    let told = together(alloc, told)?;
    let left = together(alloc, left)?;
    let sender = sender(sent.as_bytes(), fails);
    let want = (told.as_bytes(), Ok(count), left.as_bytes());
    comes_to(rt, alloc, (sender, most), want)
}

#[test]
fn serves_to_the_end(rt: HostRuntime) -> Result<(), Fail> {
    for connection in TO_THE_END {
        is_served(&rt, rt.alloc(), false, connection)?;
    }
    Ok(())
}

#[test]
fn reads_no_byte_behind_the_last_message(rt: HostRuntime) -> Result<(), Fail> {
    for connection in IN_PART {
        is_served(&rt, rt.alloc(), true, connection)?;
    }
    Ok(())
}

#[test]
fn tells_that_the_reader_failed(rt: HostRuntime) -> Result<(), Fail> {
    let sender = sender(BATCH.as_bytes(), true);
    let want = (DONE.as_bytes(), Err(ServeFault::Read(1)), b"".as_slice());
    comes_to(&rt, rt.alloc(), (sender, 9), want)
}

#[test]
fn awaits_no_body_of_a_head_that_is_refused(rt: HostRuntime) -> Result<(), Fail> {
    for line in REFUSED_HEADS.lines() {
        let (head, told) = parts(line);
        let head = written(rt.alloc(), head)?;
        let told = wanted(rt.alloc(), told)?;
        let want = (told.as_slice(), Ok(1), b"".as_slice());
        comes_to(&rt, rt.alloc(), (sender(&head, true), 9), want)?;
    }
    Ok(())
}

const ONE_TRANSFER: &str = concat!(
    "[{\"id\":\"100\",\"debit_account_id\":\"1\",\"credit_account_id\":\"2\",",
    "\"amount\":\"10\",\"ledger\":7,\"code\":1}]"
);

const TOLD: &str =
    "{\"clock\":\"5\",\"results\":[{\"number\":0,\"result\":\"ok\",\"timestamp\":\"5\"}]}";

const TOLD_AGAIN: &str = concat!(
    "{\"clock\":\"6\",\"results\":[",
    "{\"number\":18,\"result\":\"exists\",\"timestamp\":\"6\"}]}"
);

/// A firm's connection that takes so many bytes is told those, and the firm keeps the transfer.
fn keeps(rt: &impl Abort, alloc: Global, room: usize) -> Result<(), Fail> {
    let input = post(alloc, "/transfers", FIRST, ONE_TRANSFER)?;
    let whole = good(alloc, TOLD)?;
    let again = good(alloc, TOLD_AGAIN)?;
    let mut firms = base(rt, alloc)?;
    let limits = (room, 0, 9);
    let (taken, ended, _) = serve(alloc, &mut firms, sender(&input, false), limits);
    same(rt, "the connection", ended, Err(ServeFault::Write(0)));
    let front = &whole[..room.min(whole.len())];
    same(rt, "what is written", taken.as_slice(), front);
    let reply = firms.answer(alloc, &input, 0);
    same(rt, "the reply", reply.bytes(), again.as_slice());
    Ok(())
}

#[test]
fn keeps_what_it_could_not_tell(rt: HostRuntime) -> Result<(), Fail> {
    for room in [0, 1, 40] {
        keeps(&rt, rt.alloc(), room)?;
    }
    Ok(())
}
