//! Rounds that are refused, and rounds that are lost with the disk.
use super::rounds::{clients, has_heard, written_at};
use super::scripted::Scripted;
use crate::tests::firms::Firms;
use crate::tests::frail::Fate;
use crate::tests::messages::{
    FIRST, OF_FIRST, OF_SECOND, SECOND, TO_SECOND, TWICE_OF_FIRST, TWICE_OF_SECOND, UNAVAILABLE,
};
use records::Unavailable;
use std::test::Fail;

const KEYS: [&str; 2] = [FIRST, SECOND];

// Were anything of the round left, the first firm would be told that its accounts exist.
#[test]
fn of_a_round_that_is_refused_each_is_answered_alone(rt: HostRuntime) -> Result<(), Fail> {
    let to_first = Firms::with(rt.alloc(), &KEYS)?.serve_alone(OF_FIRST.as_bytes());
    for why in [Unavailable::Memory, Unavailable::Size] {
        let firms = Firms::with(rt.alloc(), &KEYS)?;
        let mut peers = clients(&rt, &[OF_FIRST, OF_SECOND, OF_SECOND])?;
        let (replies, rounds) = firms.serve_frail(&mut peers, Fate::Refused(why));
        assert!(rt; replies == 9 && rounds == 1);
        assert!(rt; has_heard(&peers, 0, to_first.as_slice()));
        assert!(rt; has_heard(&peers, 1, TO_SECOND.as_bytes()));
        assert!(rt; has_heard(&peers, 2, TO_SECOND.as_bytes()));
    }
    Ok(())
}

// Whether a client was told `unavailable`, and then, to the same message again, what a connection
// alone is told that has sent it before, or has not.
fn hears_again(
    rt: &impl AllocGlobal,
    peers: &Scripted,
    number: usize,
    twice: &str,
    is_found: bool,
) -> Result<bool, Fail> {
    let twice = twice.as_bytes();
    let once = twice.get(..twice.len() / 2).unwrap_or(&[]);
    let to_one = Firms::with(rt.alloc(), &KEYS)?.serve_alone(once);
    let (before, replies) = if is_found {
        let to_both = Firms::with(rt.alloc(), &KEYS)?.serve_alone(twice);
        (to_one.len(), to_both)
    } else {
        (0, to_one)
    };
    let again = replies.get(before..).unwrap_or(&[]);
    match peers.peer(number) {
        Some(peer) => Ok(peer.heard.strip_prefix(UNAVAILABLE.as_bytes()) == Some(again)),
        None => Ok(false),
    }
}

#[test]
fn of_a_round_that_is_lost_each_is_told_and_all_or_none_is_found(
    rt: HostRuntime,
) -> Result<(), Fail> {
    for (fate, is_found) in [(Fate::Found, true), (Fate::NotFound, false)] {
        let firms = Firms::with(rt.alloc(), &KEYS)?;
        let mut peers = clients(&rt, &[TWICE_OF_FIRST, TWICE_OF_SECOND])?;
        let (replies, rounds) = firms.serve_frail(&mut peers, fate);
        assert!(rt; replies == 4 && rounds == 2);
        assert!(rt; written_at(&peers, 0) == written_at(&peers, 1));
        assert!(rt; hears_again(&rt, &peers, 0, TWICE_OF_FIRST, is_found)?);
        assert!(rt; hears_again(&rt, &peers, 1, TWICE_OF_SECOND, is_found)?);
    }
    Ok(())
}
