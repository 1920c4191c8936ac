use super::scripted::{Peer, Scripted};
use crate::tests::firms::Firms;
use crate::tests::messages::{FIRST, OF_FIRST, OF_SECOND, SECOND, TO_SECOND};
use std::test::Fail;

const KEYS: [&str; 2] = [FIRST, SECOND];

// Two clients whose messages come and whose replies are taken in pieces of so many bytes.
fn two(rt: &impl AllocGlobal, piece: usize, takes: usize) -> Result<Scripted<'static>, Fail> {
    let mut peers = Vec::new(rt.alloc());
    peers.push(Peer::new(rt.alloc(), OF_FIRST.as_bytes(), takes))?;
    peers.push(Peer::new(rt.alloc(), OF_SECOND.as_bytes(), 10000))?;
    Ok(Scripted::new(peers, piece))
}

#[test]
fn each_client_hears_its_own_whatever_the_pieces(rt: HostRuntime) -> Result<(), Fail> {
    let to_first = Firms::with(rt.alloc(), &KEYS)?.serve_alone(OF_FIRST.as_bytes());
    for piece in [1, 7, 100] {
        let mut firms = Firms::with(rt.alloc(), &KEYS)?;
        let mut peers = two(&rt, piece, 10000)?;
        let replies = firms.serve_ready(&mut peers, 99);
        assert!(rt; replies == 6);
        assert!(rt; peers.has_heard(0, to_first.as_slice(), false));
        assert!(rt; peers.has_heard(1, TO_SECOND.as_bytes(), false));
    }
    Ok(())
}

#[test]
fn a_client_that_breaks_is_let_go_and_the_other_served(rt: HostRuntime) -> Result<(), Fail> {
    let to_first = Firms::with(rt.alloc(), &KEYS)?.serve_alone(OF_FIRST.as_bytes());
    let mut firms = Firms::with(rt.alloc(), &KEYS)?;
    let mut peers = two(&rt, 7, 10)?;
    let replies = firms.serve_ready(&mut peers, 99);
    assert!(rt; replies == 4);
    assert!(rt; peers.has_heard(0, to_first.get(..10).unwrap_or(&[]), false));
    assert!(rt; peers.has_heard(1, TO_SECOND.as_bytes(), false));
    Ok(())
}

#[test]
fn stops_behind_so_many_replies(rt: HostRuntime) -> Result<(), Fail> {
    let mut firms = Firms::with(rt.alloc(), &KEYS)?;
    let mut peers = two(&rt, 100, 10000)?;
    let replies = firms.serve_ready(&mut peers, 2);
    assert!(rt; replies == 2);
    Ok(())
}

#[test]
fn a_client_that_is_late_is_let_go_and_the_other_served(rt: HostRuntime) -> Result<(), Fail> {
    let mut firms = Firms::with(rt.alloc(), &KEYS)?;
    let mut peers = two(&rt, 100, 10000)?;
    peers.is_late_at(0, 0);
    let replies = firms.serve_ready(&mut peers, 99);
    assert!(rt; replies == 3);
    assert!(rt; peers.has_heard(0, &[], false));
    assert!(rt; peers.has_heard(1, TO_SECOND.as_bytes(), false));
    Ok(())
}

#[test]
fn what_is_left_of_replies_is_written_and_who_comes_is_let_go(rt: HostRuntime) -> Result<(), Fail> {
    let first = OF_FIRST.as_bytes().get(..190).unwrap_or(&[]);
    let to_first = Firms::with(rt.alloc(), &KEYS)?.serve_alone(first);
    let mut firms = Firms::with(rt.alloc(), &KEYS)?;
    let mut peers = two(&rt, 64, 10000)?;
    let another = Peer::new(rt.alloc(), first, 10000);
    let replies = firms.serve_and_finish(&mut peers, 2, another)?;
    assert!(rt; replies == 2);
    assert!(rt; peers.has_heard(0, to_first.as_slice(), true));
    assert!(rt; peers.has_heard(1, TO_SECOND.as_bytes().get(..100).unwrap_or(&[]), true));
    assert!(rt; peers.has_heard(2, &[], false));
    Ok(())
}

// The first message has 190 bytes, the second one 129. Of the third the head is all.
#[test]
fn tells_how_long_a_message_is_once_its_head_has_come(rt: HostRuntime) -> Result<(), Fail> {
    let mut firms = Firms::with(rt.alloc(), &KEYS)?;
    let mut peers = two(&rt, 1, 10000)?;
    let _ = firms.serve_ready(&mut peers, 99);
    let peer = peers.peer(0).ok_or("no such client")?;
    let lengths = [0, 190, 0, 129, 0];
    assert_eq!(rt; peer.wanted.as_slice(), lengths.as_slice());
    Ok(())
}
