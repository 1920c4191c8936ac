//! Statements that are begun: what is told first, and what is left and read in parts.
use super::failing::FrailFirms;
use super::looked_at::send;
use super::messages::get;
use super::scripts::{Answers, base};
use super::statements::{ENTRIES, filled, whole};
use crate::tests::asserting::same;
use crate::tests::messages::{BATCH, FIRST, SECOND, UNAVAILABLE};
use chain::ReadFault;
use parts::{Rest, read_piece, row_of};
use records::{Order, Span, Unavailable};
use std::alloc::Global;
use std::test::Fail;
use tenants::{Key, digest};

/// The chunk of no bytes.
const LAST: &[u8] = b"0\r\n\r\n";

/// The reply that has a statement without rows: its one line has 99 bytes.
const NO_ROWS: &str = concat!(
    "HTTP/1.1 200 OK\r\ncontent-type: text/csv\r\ntransfer-encoding: chunked\r\n\r\n",
    "63\r\n",
    "timestamp,transfer_id,side,kind,amount,",
    "debits_pending,debits_posted,credits_pending,credits_posted\n",
    "\r\n0\r\n\r\n"
);

/// How many entries an account has, one time after the other, and how many parts are left behind
/// what is told first.
const LEFT: [(u64, u64); 6] = [(0, 0), (499, 0), (500, 1), (501, 1), (1000, 2), (1001, 2)];

/// What is asked.
fn statement(alloc: Global) -> Result<Vec<u8>, Fail> {
    Ok(get(alloc, "/statement/1", FIRST)?)
}

/// Puts what is left of a statement behind what is told of it, and says how many parts that were.
fn read_on(firms: &mut FrailFirms, told: &mut Vec<u8>, rest: Option<Rest>) -> Result<u64, Fail> {
    let mut rest = rest;
    for many in 0..9 {
        let Some(left) = rest else {
            return Ok(many);
        };
        let part = firms.part(&left)?;
        told.extend_from_slice(part.chunks.as_slice())?;
        rest = part.rest;
    }
    Err("no end".into())
}

#[test]
fn tells_statements_in_parts(rt: HostRuntime) -> Result<(), Fail> {
    let mut firms = base(&rt, rt.alloc())?.frail();
    let reply = firms.answer(rt.alloc(), &statement(rt.alloc())?, 0);
    same(&rt, "no rows", reply.bytes(), NO_ROWS.as_bytes());
    let mut first = 1;
    for (entries, left) in LEFT {
        send(rt.alloc(), &mut firms, first, entries.saturating_add(1))?;
        first = entries.saturating_add(1);
        // With all its parts it is what is told at once.
        let message = statement(rt.alloc())?;
        let want = whole(rt.alloc(), entries)?;
        let all = firms.answer(rt.alloc(), &message, 0);
        same(&rt, "all", all.bytes(), &want);
        let begun = firms.begin(&message);
        let mut told = begun.front.bytes().to_vec(rt.alloc())?;
        let many = read_on(&mut firms, &mut told, begun.rest)?;
        same(&rt, "how many parts", many, left);
        same(&rt, "the parts", told.as_slice(), want.as_slice());
    }
    Ok(())
}

/// A statement is begun with 500 rows, and none is told of the entries that come then.
#[test]
fn tells_no_later_entries(rt: HostRuntime) -> Result<(), Fail> {
    let mut firms = base(&rt, rt.alloc())?.frail();
    send(rt.alloc(), &mut firms, 1, 501)?;
    for (entries, later) in [(500_u64, 501_u64), (501, 1100), (1100, 1101)] {
        let begun = firms.begin(&statement(rt.alloc())?);
        let mut told = begun.front.bytes().to_vec(rt.alloc())?;
        let whole_of_first = whole(rt.alloc(), 500)?;
        let front = whole_of_first.strip_suffix(LAST).ok_or("no last chunk")?;
        same(&rt, "the front", told.as_slice(), front);
        let (first, end) = (entries.saturating_add(1), later.saturating_add(1));
        send(rt.alloc(), &mut firms, first, end)?;
        read_on(&mut firms, &mut told, begun.rest)?;
        let want = whole(rt.alloc(), entries)?;
        same(&rt, "the parts", told.as_slice(), want.as_slice());
    }
    Ok(())
}

#[test]
fn reads_a_part_again_that_was_refused(rt: HostRuntime) -> Result<(), Fail> {
    let mut firms = filled(&rt, rt.alloc())?;
    let begun = firms.begin(&statement(rt.alloc())?);
    let mut told = begun.front.bytes().to_vec(rt.alloc())?;
    let rest = begun.rest.ok_or("nothing is left")?;
    for why in [Unavailable::Memory, Unavailable::Size, Unavailable::Disk] {
        firms.ledgers.refusal = Some((0, why));
        let refused = firms.part(&rest).err();
        same(&rt, "refused", refused, Some(ReadFault::Unavailable(why)));
    }
    let shut = firms.part(&rest).err();
    let disk = ReadFault::Unavailable(Unavailable::Disk);
    same(&rt, "shut", shut, Some(disk));
    firms.ledgers.is_shut = false;
    read_on(&mut firms, &mut told, Some(rest))?;
    let want = whole(rt.alloc(), ENTRIES)?;
    same(&rt, "the parts", told.as_slice(), want.as_slice());
    Ok(())
}

#[test]
fn leaves_nothing_behind_other_replies(rt: HostRuntime) -> Result<(), Fail> {
    let mut firms = filled(&rt, rt.alloc())?;
    let begun = firms.begin(BATCH.as_bytes());
    same(&rt, "a batch", begun.rest, None);
    let begun = firms.begin(b"");
    same(&rt, "no message", begun.rest, None);
    let message = statement(rt.alloc())?;
    firms.ledgers.refusal = Some((0, Unavailable::Memory));
    let begun = firms.begin(&message);
    same(&rt, "refused", begun.front.bytes(), UNAVAILABLE.as_bytes());
    same(&rt, "refused", begun.rest, None);
    let begun = FrailFirms::failed(rt.alloc()).begin(&message);
    same(&rt, "failed", begun.front.bytes(), UNAVAILABLE.as_bytes());
    same(&rt, "failed", begun.rest, None);
    Ok(())
}

/// The digest of a key.
fn digest_of(key: &str) -> Result<[u8; 32], &'static str> {
    Ok(digest(&Key::read(key.as_bytes()).ok_or("no key")?))
}

#[test]
fn tells_who_has_no_statement(rt: HostRuntime) -> Result<(), Fail> {
    let mut firms = base(&rt, rt.alloc())?.frail();
    let rest = Rest::whole(digest_of(FIRST)?, 9);
    let told = firms.part(&rest).err();
    same(&rt, "no account", told, Some(ReadFault::NoAccount));
    let rest = Rest::whole(digest_of(SECOND)?, 1);
    let told = firms.part(&rest).err();
    same(&rt, "no firm", told, Some(ReadFault::UnknownKey));
    Ok(())
}

/// Bounds, the order, how many entries are wanted at most, and the ids of those that are told.
static PIECES: [(u64, u64, Order, u32, &[u128]); 5] = [
    (0, u64::MAX, Order::Oldest, 3, &[1, 2, 3]),
    (0, u64::MAX, Order::Newest, 2, &[9, 8]),
    (6, 8, Order::Oldest, 9, &[2, 3, 4]),
    (6, 8, Order::Newest, 1, &[4]),
    (14, u64::MAX, Order::Oldest, 9, &[]),
];

#[test]
fn reads_pieces(rt: HostRuntime) -> Result<(), Fail> {
    let mut firms = base(&rt, rt.alloc())?.frail();
    send(rt.alloc(), &mut firms, 1, 10)?;
    let digest = digest_of(FIRST)?;
    for (first, last, order, most, ids) in PIECES {
        let span = Span {
            first,
            last,
            order,
            most,
        };
        let piece = read_piece(rt.alloc(), &mut firms.ledgers, &digest, 1, &span)?;
        same(&rt, "the clock", piece.clock, 13);
        let mut told = Vec::new(rt.alloc());
        for entry in &piece.entries {
            told.push(row_of(1, entry).transfer_id)?;
        }
        same(&rt, "the entries", told.as_slice(), ids);
    }
    Ok(())
}
