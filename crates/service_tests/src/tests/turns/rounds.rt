use super::scripted::{Peer, Scripted};
use crate::tests::firms::Firms;
use crate::tests::messages::{
    FIRST, LAST_AND_ONE_MORE, OF_FIRST, OF_SECOND, SECOND, TO_CUT, TO_LAST, TO_SECOND,
};
use std::test::Fail;

const KEYS: [&str; 2] = [FIRST, SECOND];

// A statement of the second firm, which is no batch.
const READ: &str = concat!(
    "GET /statement/1 HTTP/1.1\r\nx-ledger-key: ",
    "abababababababababababababababababababababababababababababababab",
    "\r\n\r\n"
);

// It has no such account.
const NO_ACCOUNT: &str = concat!(
    "HTTP/1.1 404 Not Found\r\ncontent-length: 22\r\ncontent-type: application/json\r\n\r\n",
    "{\"error\":\"no_account\"}"
);

/// Clients that send these, read and written at once.
pub(crate) fn clients(
    rt: &impl AllocGlobal,
    texts: &[&'static str],
) -> Result<Scripted<'static>, Fail> {
    let mut peers = Vec::new(rt.alloc());
    for text in texts {
        peers.push(Peer::new(rt.alloc(), text.as_bytes(), 10000).at_once())?;
    }
    Ok(Scripted::new(peers, 1000))
}

/// Behind how many things that were told a client was first written to.
pub(crate) fn written_at(peers: &Scripted, number: usize) -> Option<u64> {
    peers.peer(number)?.written_at
}

/// Whether a client was written this, and nothing more.
pub(crate) fn has_heard(peers: &Scripted, number: usize, text: &[u8]) -> bool {
    match peers.peer(number) {
        Some(peer) => peer.heard.as_slice() == text,
        None => false,
    }
}

/// Whether a client's replies were these, each of which was handed over before it was written.
fn was_handed(peers: &Scripted, number: usize, text: &[u8]) -> bool {
    match peers.peer(number) {
        Some(peer) => peer.handed.as_slice() == text && !peer.is_ahead,
        None => false,
    }
}

#[test]
fn two_that_are_ready_at_once_are_written_behind_one_round(rt: HostRuntime) -> Result<(), Fail> {
    let to_first = Firms::with(rt.alloc(), &KEYS)?.serve_alone(OF_FIRST.as_bytes());
    let mut firms = Firms::with(rt.alloc(), &KEYS)?;
    let mut peers = clients(&rt, &[OF_FIRST, OF_SECOND])?;
    assert!(rt; firms.serve_ready(&mut peers, 99) == 6);
    assert!(rt; written_at(&peers, 0).is_some());
    assert!(rt; written_at(&peers, 0) == written_at(&peers, 1));
    assert!(rt; has_heard(&peers, 0, to_first.as_slice()));
    assert!(rt; has_heard(&peers, 1, TO_SECOND.as_bytes()));
    Ok(())
}

#[test]
fn many_share_rounds_and_hear_what_each_hears_alone(rt: HostRuntime) -> Result<(), Fail> {
    let mut firms = Firms::with(rt.alloc(), &KEYS)?;
    let mut texts = [OF_SECOND; 40];
    texts[7] = OF_FIRST;
    let to_first = Firms::with(rt.alloc(), &KEYS)?.serve_alone(OF_FIRST.as_bytes());
    let mut peers = clients(&rt, &texts)?;
    assert!(rt; firms.serve_ready(&mut peers, 999) == 120);
    for number in 0..40 {
        let text = if number == 7 {
            to_first.as_slice()
        } else {
            TO_SECOND.as_bytes()
        };
        assert!(rt; has_heard(&peers, number, text));
    }
    assert!(rt; written_at(&peers, 0) == written_at(&peers, 31));
    assert!(rt; written_at(&peers, 31) < written_at(&peers, 32));
    assert!(rt; written_at(&peers, 32) == written_at(&peers, 39));
    assert!(rt; peers.shared.get() >= 40);
    Ok(())
}

// Their messages are answered in one round, and what follows them is not.
#[test]
fn who_closes_in_a_round_is_let_go_behind_it(rt: HostRuntime) -> Result<(), Fail> {
    let mut firms = Firms::with(rt.alloc(), &KEYS)?;
    let mut peers = clients(&rt, &[LAST_AND_ONE_MORE, OF_SECOND, LAST_AND_ONE_MORE])?;
    assert!(rt; firms.serve_ready(&mut peers, 99) == 5);
    assert!(rt; peers.has_heard(0, TO_LAST.as_bytes(), false));
    assert!(rt; peers.has_heard(1, TO_SECOND.as_bytes(), false));
    assert!(rt; peers.has_heard(2, TO_LAST.as_bytes(), false));
    assert!(rt; written_at(&peers, 0) == written_at(&peers, 2));
    assert!(rt; peers.shared.get() >= 3);
    Ok(())
}

#[test]
fn who_is_alone_shares_no_round(rt: HostRuntime) -> Result<(), Fail> {
    let mut firms = Firms::with(rt.alloc(), &KEYS)?;
    let mut peers = clients(&rt, &[OF_SECOND])?;
    assert!(rt; firms.serve_ready(&mut peers, 99) == 3);
    assert!(rt; has_heard(&peers, 0, TO_SECOND.as_bytes()));
    assert!(rt; peers.shared.get() == 0);
    Ok(())
}

// Its two batches, the second of which is refused, but not what is cut short.
#[test]
fn batches_are_told_with_their_replies(rt: HostRuntime) -> Result<(), Fail> {
    let mut firms = Firms::with(rt.alloc(), &KEYS)?;
    let mut peers = clients(&rt, &[OF_SECOND])?;
    assert!(rt; firms.serve_ready(&mut peers, 99) == 3);
    assert!(rt; peers.batches.get() == (0, 2, TO_SECOND.len() - TO_CUT.len()));
    assert!(rt; was_handed(&peers, 0, TO_SECOND.as_bytes()));
    Ok(())
}

#[test]
fn batches_of_a_round_are_told_too(rt: HostRuntime) -> Result<(), Fail> {
    let mut firms = Firms::with(rt.alloc(), &KEYS)?;
    let mut peers = clients(&rt, &[OF_FIRST, READ, OF_SECOND])?;
    assert!(rt; firms.serve_ready(&mut peers, 99) == 7);
    assert!(rt; peers.shared.get() > 0);
    let (accounts, transfers, _) = peers.batches.get();
    assert!(rt; (accounts, transfers) == (1, 3));
    assert!(rt; was_handed(&peers, 2, TO_SECOND.as_bytes()));
    Ok(())
}

#[test]
fn what_is_no_batch_waits_for_no_round(rt: HostRuntime) -> Result<(), Fail> {
    let mut firms = Firms::with(rt.alloc(), &KEYS)?;
    let mut peers = clients(&rt, &[OF_FIRST, READ, OF_SECOND])?;
    assert!(rt; firms.serve_ready(&mut peers, 99) == 7);
    assert!(rt; written_at(&peers, 1) < written_at(&peers, 0));
    assert!(rt; written_at(&peers, 0) == written_at(&peers, 2));
    assert!(rt; has_heard(&peers, 1, NO_ACCOUNT.as_bytes()));
    assert!(rt; has_heard(&peers, 2, TO_SECOND.as_bytes()));
    Ok(())
}

// All have joined when three were told, and each was read twice when nine were. The tenth gathers
// the first client, and then that one has had its time.
#[test]
fn who_goes_while_it_is_gathered_is_left_out(rt: HostRuntime) -> Result<(), Fail> {
    let mut firms = Firms::with(rt.alloc(), &KEYS)?;
    let mut peers = clients(&rt, &[OF_SECOND, OF_FIRST, OF_SECOND])?;
    peers.is_late_at(0, 10);
    assert!(rt; firms.serve_ready(&mut peers, 99) == 6);
    assert!(rt; has_heard(&peers, 0, &[]));
    assert!(rt; written_at(&peers, 1).is_some());
    assert!(rt; written_at(&peers, 1) == written_at(&peers, 2));
    assert!(rt; has_heard(&peers, 2, TO_SECOND.as_bytes()));
    Ok(())
}

#[test]
fn a_round_stops_behind_so_many_replies(rt: HostRuntime) -> Result<(), Fail> {
    let texts = [OF_SECOND; 5];
    let first = TO_SECOND.as_bytes().get(..100).unwrap_or(&[]);
    for most in [1, 2, 3, 4] {
        let mut firms = Firms::with(rt.alloc(), &KEYS)?;
        let mut peers = clients(&rt, &texts)?;
        assert!(rt; firms.serve_ready(&mut peers, most) == most);
        let mut heard: u64 = 0;
        for number in 0..5 {
            if has_heard(&peers, number, first) {
                heard = heard.saturating_add(1);
            }
        }
        assert!(rt; heard == most);
    }
    Ok(())
}

// The first batch of all has 190 bytes, and is put off ten times. The two of the other firm are
// answered meanwhile, and what is no batch is not put off. Then the first firm hears what it hears
// alone.
#[test]
fn who_is_put_off_is_answered_behind_the_others(rt: HostRuntime) -> Result<(), Fail> {
    let to_first = Firms::with(rt.alloc(), &KEYS)?.serve_alone(OF_FIRST.as_bytes());
    let mut firms = Firms::with(rt.alloc(), &KEYS)?;
    let mut peers = clients(&rt, &[OF_FIRST, READ, OF_SECOND])?;
    assert!(rt; firms.serve_putting_off(&mut peers, 150, 10) == 7);
    assert!(rt; written_at(&peers, 2).is_some());
    assert!(rt; written_at(&peers, 1) < written_at(&peers, 2));
    assert!(rt; written_at(&peers, 2) < written_at(&peers, 0));
    assert!(rt; has_heard(&peers, 0, to_first.as_slice()));
    assert!(rt; has_heard(&peers, 1, NO_ACCOUNT.as_bytes()));
    assert!(rt; has_heard(&peers, 2, TO_SECOND.as_bytes()));
    Ok(())
}
