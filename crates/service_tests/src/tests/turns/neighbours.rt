//! Firms beside one that has many clients.
use super::rounds::written_at;
use super::scripted::{Peer, Scripted};
use crate::tests::firms::Firms;
use crate::tests::messages::{FIRST, SECOND};
use std::alloc::Global;
use std::test::Fail;

const KEYS: [&str; 2] = [FIRST, SECOND];

/// So many bytes fill a round alone.
const LONG: usize = 140_000;

const SHORT: usize = 2;

// A batch of no event, whose body is filled up with spaces.
fn batch(alloc: Global, key: &str, length: usize) -> Result<Vec<u8>, Fail> {
    let mut text = Vec::new(alloc);
    text.extend_from_slice(b"POST /transfers HTTP/1.1\r\nx-ledger-key: ")?;
    text.extend_from_slice(key.as_bytes())?;
    let stated: &[u8] = if length == LONG { b"140000" } else { b"2" };
    text.extend_from_slice(b"\r\ncontent-length: ")?;
    text.extend_from_slice(stated)?;
    text.extend_from_slice(b"\r\n\r\n[]")?;
    for _ in SHORT..length {
        text.push(b' ')?;
    }
    Ok(text)
}

// When the second of these was written to, by the number of things that had happened.
fn second_of(peers: &Scripted, numbers: &[usize]) -> Option<u64> {
    let mut first = None;
    let mut second = None;
    for number in numbers {
        let at = written_at(peers, *number)?;
        if first.is_none() || Some(at) < first {
            second = first;
            first = Some(at);
        } else if second.is_none() || Some(at) < second {
            second = Some(at);
        }
    }
    second
}

// Three clients of the first firm are ready before the one of the second. That one is answered
// before a second one of them, whatever it sends.
#[test]
fn a_firm_has_its_turn_before_a_second_client_of_another(rt: HostRuntime) -> Result<(), Fail> {
    let alloc = rt.alloc();
    let long = batch(alloc, FIRST, LONG)?;
    for length in [SHORT, LONG] {
        let other = batch(alloc, SECOND, length)?;
        let mut firms = Firms::with(alloc, &KEYS)?;
        let mut all = Vec::new(alloc);
        for text in [&long, &long, &long, &other] {
            all.push(Peer::new(alloc, text, 10_000).at_once())?;
        }
        let mut peers = Scripted::new(all, 10_000);
        assert!(rt; firms.serve_ready(&mut peers, 99) == 4);
        let theirs = second_of(&peers, &[0, 1, 2]);
        assert!(rt; written_at(&peers, 3).is_some() && theirs.is_some());
        assert!(rt; written_at(&peers, 3) < theirs);
    }
    Ok(())
}

// Where nobody else is ready, one firm's short batches share a round.
#[test]
fn a_firm_alone_has_all_turns(rt: HostRuntime) -> Result<(), Fail> {
    let alloc = rt.alloc();
    let text = batch(alloc, FIRST, SHORT)?;
    let mut firms = Firms::with(alloc, &KEYS)?;
    let mut all = Vec::new(alloc);
    for _ in 0..10 {
        all.push(Peer::new(alloc, &text, 10_000).at_once())?;
    }
    let mut peers = Scripted::new(all, 10_000);
    assert!(rt; firms.serve_ready(&mut peers, 99) == 10);
    for number in 1..10 {
        assert!(rt; written_at(&peers, number) == written_at(&peers, 0));
    }
    assert!(rt; peers.shared.get() == 10);
    Ok(())
}
