//! Rounds over a book: transfers of two firms at once, all of them kept or none.

use super::firms::*;
use crate::tests::asserting::same;
use chain::{BatchFault, BatchReply, Ledgers, RoundWork, Rounds};
use records::Unavailable;
use samples::transfer;
use std::alloc::Global;
use std::test::Fail;

/// Sends one transfer for both firms and for nobody; then it may want memory.
#[derive(Drop)]
struct AllSend {
    alloc: Global,
    wants_memory: bool,
}

impl RoundWork for AllSend {
    type Output = [Option<u64>; 3];

    ghost gives = { λ _ _ _ _. Unit {0} };

    fn run<L: Ledgers>(self, ledgers: &mut L) -> Result<[Option<u64>; 3], Unavailable> {
        let first = sent(self.alloc, ledgers, &FIRM)?;
        let other = sent(self.alloc, ledgers, &OTHER)?;
        let nobody = sent(self.alloc, ledgers, &NOBODY)?;
        if self.wants_memory {
            return Err(Unavailable::Memory);
        }
        Ok([first, other, nobody])
    }
}

// The clock behind the transfer of a firm, if there is such a firm.
fn sent<L: Ledgers>(
    alloc: Global,
    ledgers: &mut L,
    digest: &[u8; 32],
) -> Result<Option<u64>, Unavailable>
    ensures { L.means.follows ledgers.old ledgers.new }
{
    let transfers = [transfer(100, (1, 2), 10)];
    let sending = Sending {
        alloc,
        transfers: &transfers,
        moment: 0,
    };
    match ledgers.in_batch(digest, sending) {
        Ok(BatchReply::Done { clock, .. }) => Ok(Some(clock)),
        Ok(BatchReply::ClockExhausted) | Err(BatchFault::UnknownKey) => Ok(None),
        Err(BatchFault::Unavailable(why)) => Err(why),
    }
}

#[test]
fn a_round_is_kept_whole_or_not_at_all(rt: HostRuntime) -> Result<(), Fail> {
    let alloc = rt.alloc();
    let mut firms = Firms::base(alloc)?;
    let ledgers = &mut firms.ledgers;
    let failing = AllSend {
        alloc,
        wants_memory: true,
    };
    let told = ledgers.in_round(failing);
    same(&rt, "a round", told, Err(Unavailable::Memory));
    let clock = ledgers.lookup_transfers(alloc, &FIRM, &[100])?.clock;
    same(&rt, "the clock", clock, 4);
    let clock = ledgers.lookup_transfers(alloc, &OTHER, &[100])?.clock;
    same(&rt, "the other", clock, 0);

    let sending = AllSend {
        alloc,
        wants_memory: false,
    };
    let clocks = [Some(5), Some(1), None];
    same(&rt, "a round", ledgers.in_round(sending), Ok(clocks));
    let found = ledgers.lookup_transfers(alloc, &FIRM, &[100])?;
    same(&rt, "the clock", found.clock, 5);
    same(&rt, "what is kept", found.entries.len(), 1);
    let clock = ledgers.lookup_transfers(alloc, &OTHER, &[100])?.clock;
    same(&rt, "the other", clock, 1);
    Ok(())
}
