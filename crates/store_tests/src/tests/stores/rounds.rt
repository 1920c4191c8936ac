//! Rounds: the transfers of two tenants at once, all of them kept or none.

use super::commands::{Command, Text, put_word, said, shown, told};
use super::driven::Driven;
use super::events::transfers;
use super::playing::play_from_base;
use crate::tests::works::Sending;
use chain::{BatchFault, BatchReply, Ledgers, RoundWork, Rounds};
use records::{TransferResult, Unavailable};
use sqlite_disk::Disk;

/// What a batch of transfers was told.
type Told = Result<BatchReply<TransferResult>, BatchFault>;

/// Transfers of two tenants, behind which the round may want memory.
#[derive(Drop)]
struct Both<'a> {
    digests: [[u8; 32]; 2],
    first: Sending<'a>,
    second: Sending<'a>,
    wants_memory: bool,
}

impl RoundWork for Both<'_> {
    type Output = (Told, Told);

    ghost gives = { λ _ _ _ _. Unit {0} };

    fn run<L: Ledgers>(self, ledgers: &mut L) -> Result<(Told, Told), Unavailable> {
        let [one, other] = self.digests;
        let first = answered(ledgers.in_batch(&one, self.first))?;
        let second = answered(ledgers.in_batch(&other, self.second))?;
        if self.wants_memory {
            return Err(Unavailable::Memory);
        }
        Ok((first, second))
    }
}

/// What was told, unless it fails the round.
fn answered(told: Told) -> Result<Told, Unavailable> {
    match told {
        Err(BatchFault::Unavailable(why)) => Err(why),
        told => Ok(told),
    }
}

/// Sends transfers of the tenant, and behind a stroke those of the tenant with another digest.
pub fn send_both<D: Disk + Drop>(store: &mut Driven<D>, command: &Command<'_>) -> Text {
    let alloc = command.alloc;
    let (first, behind) = command.rest.split_once(" / ").unwrap_or((command.rest, ""));
    let other = Command::read(alloc, behind);
    let first = Command {
        rest: first,
        ..*command
    };
    let sent = [
        transfers(alloc, first.batch().1)?,
        transfers(alloc, other.batch().1)?,
    ];
    let both = Both {
        digests: [first.digest(), other.digest()],
        first: Sending {
            alloc,
            transfers: &sent[0],
            moment: first.batch().0,
        },
        second: Sending {
            alloc,
            transfers: &sent[1],
            moment: other.batch().0,
        },
        wants_memory: other.verb == "fail",
    };
    match store.ledgers.in_round(both) {
        Ok((first, second)) => {
            let mut text = told(alloc, first)?;
            put_word(&mut text, said(alloc, "/")?)?;
            put_word(&mut text, told(alloc, second)?)?;
            Ok(text)
        }
        Err(why) => shown(alloc, &why),
    }
}

/// Two tenants in one round: each has its own clock; a round that wants memory at its end keeps
/// nothing of either, and one for nobody keeps the other's; what falls due comes in a round too,
/// once, and behind a round in a batch.
const ROUNDS: &str = "\
North both 100: 1>2 100 pending timeout=1 / South transfers 100: 1>2 5; 101: 9>2 1 => \
clock 5: 0@5 / clock 6: 0@5 44@6
North see 1 => Ok((Some([100, 0, 0, 0]), Some(Open), 5))
South see 1 => Ok((Some([0, 5, 0, 0]), None, 6))
South rows failed => 1 rows: 101
North both at 1000000003 101: 1>2 1 / South fail 102: 1>2 1 => Memory
North see 1 => Ok((Some([100, 0, 0, 0]), Some(Open), 5))
South see 1 => Ok((Some([0, 5, 0, 0]), None, 6))
North both at 1000000005 101: 1>2 1 / Nobody transfers 102: 1>2 1 => \
clock 1000000006: 0@1000000006 / UnknownKey
North see 1 => Ok((Some([0, 1, 0, 0]), Some(Expired), 1000000006))
South both 102: 1>2 1 / South transfers 103: 1>2 1 => clock 7: 0@7 / clock 8: 0@8
South see 1 => Ok((Some([0, 7, 0, 0]), None, 8))
North transfers 102: 1>2 1 => clock 1000000007: 0@1000000007
North see 1 => Ok((Some([0, 2, 0, 0]), Some(Expired), 1000000007))";

#[test]
fn a_round_of_two_tenants(rt: HostRuntime) {
    play_from_base(&rt, rt.alloc(), ROUNDS);
}
