//! Statements, which are told in parts of 500 entries.
use super::scripted::{Peer, Scripted};
use crate::tests::booked::{ASKS, CHUNKED, LAST, chunk, firms_with, statement, transfers};
use crate::tests::messages::{FIRST, OF_SECOND, SECOND, TO_SECOND};
use std::alloc::Global;
use std::test::Fail;

const KEYS: [&str; 2] = [FIRST, SECOND];

/// A question of the first firm, with a field wanting.
const QUESTION: &str = concat!(
    "POST /query/transfers HTTP/1.1\r\nx-ledger-key: ",
    "0000000000000000000000000000000000000000000000000000000000000000",
    "\r\ncontent-length: 2\r\n\r\n{}"
);

/// More than is ever written.
const ALL: usize = 10_000_000;

// Clients who send these, and take so many bytes at once. None waits where all is at once.
fn clients<'a>(
    alloc: Global,
    texts: &[&'a [u8]],
    piece: usize,
    at_once: bool,
) -> Result<Scripted<'a>, Fail> {
    let mut peers = Vec::new(alloc);
    for text in texts {
        let peer = Peer::new(alloc, text, ALL);
        peers.push(if at_once { peer.at_once() } else { peer })?;
    }
    Ok(Scripted::new(peers, piece))
}

// Behind how many things that were told a client took something, each time.
fn taken_at<'a>(peers: &'a Scripted, number: usize) -> &'a [u64] {
    match peers.peer(number) {
        Some(peer) => &peer.taken_at,
        None => &[],
    }
}

// Behind fewer than 500 lines the last chunk is there at once; behind 500 it is a part of its own.
#[test]
fn a_statement_is_whole_whatever_the_pieces(rt: HostRuntime) -> Result<(), Fail> {
    let alloc = rt.alloc();
    let cases: [(u64, &[u64]); 3] = [(1, &[1]), (500, &[500]), (1001, &[500, 1000, 1001])];
    for (count, places) in cases {
        let told = statement(alloc, places)?;
        let mut firms = firms_with(alloc, &KEYS, count)?;
        let alone = firms.serve_alone(ASKS.as_bytes());
        assert!(rt; alone == told);
        for piece in [97, 1000] {
            let mut peers = clients(alloc, &[ASKS.as_bytes()], piece, false)?;
            assert!(rt; firms.serve_ready(&mut peers, 99) == 1);
            assert!(rt; peers.has_heard(0, &told, false));
        }
    }
    Ok(())
}

// Who takes a part at once takes each in a turn of its own, that of the next statement too.
#[test]
fn one_part_is_read_in_a_turn(rt: HostRuntime) -> Result<(), Fail> {
    let alloc = rt.alloc();
    let mut asks = Vec::new(alloc);
    asks.extend_from_slice(ASKS.as_bytes())?;
    asks.extend_from_slice(ASKS.as_bytes())?;
    let mut firms = firms_with(alloc, &KEYS, 1001)?;
    let mut peers = clients(alloc, &[&asks], ALL, true)?;
    assert!(rt; firms.serve_ready(&mut peers, 99) == 2);
    let taken = taken_at(&peers, 0);
    assert!(rt; taken.len() == 6);
    let mut last: Option<u64> = None;
    for at in taken {
        let now = Some(*at);
        assert!(rt; last < now);
        last = now;
    }
    Ok(())
}

// Whether something was taken behind more than this, and behind less than that.
fn is_between(taken: &[u64], from: Option<&u64>, to: Option<&u64>) -> bool {
    taken.iter().any(|at| Some(at) > from && Some(at) < to)
}

#[test]
fn others_are_answered_between_two_parts(rt: HostRuntime) -> Result<(), Fail> {
    let alloc = rt.alloc();
    let told = statement(alloc, &[500, 501])?;
    let mut firms = firms_with(alloc, &KEYS, 501)?;
    let texts = [ASKS.as_bytes(), OF_SECOND.as_bytes()];
    let mut peers = clients(alloc, &texts, ALL, true)?;
    assert!(rt; firms.serve_ready(&mut peers, 99) == 4);
    let taken = taken_at(&peers, 0);
    assert!(rt; is_between(taken_at(&peers, 1), taken.first(), taken.get(1)));
    assert!(rt; peers.has_heard(0, &told, false));
    assert!(rt; peers.has_heard(1, TO_SECOND.as_bytes(), false));
    Ok(())
}

// Five clients who have a question behind a statement put off nobody while they are told it.
#[test]
fn questions_behind_statements_put_off_no_others(rt: HostRuntime) -> Result<(), Fail> {
    let alloc = rt.alloc();
    let mut asks = Vec::new(alloc);
    asks.extend_from_slice(ASKS.as_bytes())?;
    asks.extend_from_slice(QUESTION.as_bytes())?;
    let mut others = Vec::new(alloc);
    others.extend_from_slice(b"GET /health HTTP/1.1\r\n\r\n")?;
    others.extend_from_slice(QUESTION.as_bytes())?;
    let mut firms = firms_with(alloc, &KEYS, 1001)?;
    let texts: [&[u8]; 6] = [&asks, &asks, &asks, &asks, &asks, &others];
    let mut peers = clients(alloc, &texts, ALL, true)?;
    assert!(rt; firms.serve_ready(&mut peers, 99) == 12);
    let taken = taken_at(&peers, 0);
    assert!(rt; is_between(taken_at(&peers, 5), taken.get(1), taken.get(2)));
    Ok(())
}

// Another client books a transfer before the last part is read. The statement ends where it was
// asked for, and the next one has that transfer too.
#[test]
fn what_is_booked_meanwhile_is_told_by_the_next_one(rt: HostRuntime) -> Result<(), Fail> {
    let alloc = rt.alloc();
    let mut told = statement(alloc, &[500, 1000, 1001])?;
    let next = statement(alloc, &[500, 1000, 1002])?;
    told.extend_from_slice(&next)?;
    let mut asks = Vec::new(alloc);
    asks.extend_from_slice(ASKS.as_bytes())?;
    asks.extend_from_slice(ASKS.as_bytes())?;
    let books = transfers(alloc, 1001, 1)?;
    let mut firms = firms_with(alloc, &KEYS, 1001)?;
    let mut peers = clients(alloc, &[&asks, &books], ALL, true)?;
    assert!(rt; firms.serve_ready(&mut peers, 99) == 3);
    let taken = taken_at(&peers, 0);
    assert!(rt; is_between(taken_at(&peers, 1), taken.get(1), taken.get(2)));
    assert!(rt; peers.has_heard(0, &told, false));
    Ok(())
}

// What stands before the first part's end, where no other is told.
fn first_part(alloc: Global) -> Result<Vec<u8>, Fail> {
    let mut text = Vec::new(alloc);
    text.extend_from_slice(CHUNKED.as_bytes())?;
    text.extend_from_slice(&chunk(alloc, 0, 500)?)?;
    Ok(text)
}

#[test]
fn a_statement_that_cannot_be_read_on_is_cut_short(rt: HostRuntime) -> Result<(), Fail> {
    let alloc = rt.alloc();
    let told = first_part(alloc)?;
    let texts = [ASKS.as_bytes(), OF_SECOND.as_bytes()];
    for (piece, at_once) in [(1000, false), (ALL, true)] {
        let mut firms = firms_with(alloc, &KEYS, 501)?;
        let mut peers = clients(alloc, &texts, piece, at_once)?;
        assert!(rt; firms.serve_blind(&mut peers, 99) == 4);
        assert!(rt; peers.has_heard(0, &told, false));
        assert!(rt; !told.ends_with(LAST.as_bytes()));
        assert!(rt; peers.has_heard(1, TO_SECOND.as_bytes(), false));
    }
    Ok(())
}

// Once as many replies as are wanted are begun no message is answered, and what is left of them is
// read and written.
#[test]
fn the_rest_of_a_statement_is_written_at_the_end(rt: HostRuntime) -> Result<(), Fail> {
    let alloc = rt.alloc();
    let told = statement(alloc, &[500, 501])?;
    let mut asks = Vec::new(alloc);
    asks.extend_from_slice(ASKS.as_bytes())?;
    asks.extend_from_slice(ASKS.as_bytes())?;
    for piece in [1000, ALL] {
        let mut firms = firms_with(alloc, &KEYS, 501)?;
        let mut peers = clients(alloc, &[&asks], piece, false)?;
        let another = Peer::new(alloc, ASKS.as_bytes(), ALL);
        assert!(rt; firms.serve_and_finish(&mut peers, 1, another)? == 1);
        assert!(rt; peers.has_heard(0, &told, true));
        assert!(rt; peers.has_heard(1, &[], false));
    }
    Ok(())
}

#[test]
fn at_the_end_too_it_is_cut_short_where_it_cannot_be_read_on(rt: HostRuntime) -> Result<(), Fail> {
    let alloc = rt.alloc();
    let told = first_part(alloc)?;
    let mut firms = firms_with(alloc, &KEYS, 501)?;
    let mut peers = clients(alloc, &[ASKS.as_bytes()], 1000, false)?;
    assert!(rt; firms.serve_blind(&mut peers, 1) == 1);
    assert!(rt; peers.has_heard(0, &told, false));
    Ok(())
}

// It has taken one part when it has had its time, and the other client is served.
#[test]
fn who_is_late_between_two_parts_is_let_go(rt: HostRuntime) -> Result<(), Fail> {
    let alloc = rt.alloc();
    let told = first_part(alloc)?;
    let mut firms = firms_with(alloc, &KEYS, 501)?;
    let texts = [ASKS.as_bytes(), OF_SECOND.as_bytes()];
    let mut peers = clients(alloc, &texts, ALL, true)?;
    peers.is_late_at(0, 7);
    assert!(rt; firms.serve_ready(&mut peers, 99) == 4);
    assert!(rt; peers.has_heard(0, &told, false));
    assert!(rt; peers.has_heard(1, TO_SECOND.as_bytes(), false));
    Ok(())
}
