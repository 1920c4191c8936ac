//! Where an allocation is refused, the ledger is unavailable and as it was, and answers when there
//! is memory again. To be run with each allocation refused in turn (`make alloc`).
use super::bodies::{CHAINS_AND_POSTS, IN_TURN, counts};
use crate::plain_reply::PlainReply;
use crate::responding::respond_plain;
use crate::sample_book::{FIRST, two_tenants};

#[test]
fn survives_want_of_memory(rt: HostRuntime) {
    for (turns, transfers) in [(IN_TURN, 1), (CHAINS_AND_POSTS, 2)] {
        let (Some((body, _, want)), Ok(mut book)) = (turns.first(), two_tenants(rt.alloc())) else {
            continue;
        };
        let mut reply = respond_plain(rt.alloc(), &mut book, &FIRST, body, 0);
        if let PlainReply::Unavailable = reply {
            assert_eq!(rt; counts(&mut book), (0, 0));
            reply = respond_plain(rt.alloc(), &mut book, &FIRST, body, 0);
        }
        match reply {
            PlainReply::Body(told) => assert_eq!(rt; told.as_slice(), *want),
            _ => panic!(rt; "it is answered"),
        }
        assert_eq!(rt; counts(&mut book), (transfers, 0));
    }
}
