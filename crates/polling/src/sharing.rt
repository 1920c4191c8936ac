//! Messages of several clients, answered in one round.
ghost use Rattle.std.specs.Prelude.{ℕ};
ghost use Rattle.service.specs.Seen.{Whole};
ghost use Rattle.polling.specs.Serving.{rules};
ghost use Rattle.polling.specs.Seating.{ServesEach, held, seats_in};
ghost use Rattle.polling.specs.Steps.{RepliesUpTo};

use crate::putting::{put_all, tell_all};
use crate::round::{Round, copy_all};
use crate::{Peers, Steward};
use chain::Rounds;
use clients::Client;
use records::Unavailable;
use service::{Moments, Turns};
use std::alloc::Global;
use std::collections::BTreeMap;

/// Answers the next messages of clients in one round, of so many at most, and says how many are
/// answered. There are none where the round is refused for want of memory or size, or would be of
/// one message alone. After the commit of all of them each reply is handed to the connections. Where
/// the disk fails with it, each client's reply is that the ledgers are unavailable.
pub(crate) fn share_round<L: Rounds, H: Steward<L>, C: Moments, P: Peers>(
    alloc: Global,
    peers: &mut P,
    clients: &mut BTreeMap<u64, Client>,
    numbers: &[u64],
    ledgers: &mut L,
    moments: &mut C,
    most: u64,
) -> u64
    ensures { RepliesUpTo most result
        ((next : ℕ) →
        ServesEach (rules L.means C.gives H.renews H.waits P.does)
        (held (Whole ledgers.old) moments.old peers.old (seats_in clients.old) next)
        (held (Whole ledgers.new) moments.new peers.new (seats_in clients.new) next) result) }
{
    let round = copy_all(alloc, clients, numbers, moments, most);
    if round.members.len() < 2 {
        return 0;
    }
    let messages = round.messages.as_slice();
    let replies = ledgers.in_round(Turns { alloc, messages });
    H::is_settled(ledgers);
    match replies {
        Ok(replies) => put_all::<L, H, C, P>(peers, clients, &round, replies),
        Err(why) => match why {
            Unavailable::Disk => tell_all::<L, H, C, P>(clients, &round),
            Unavailable::Memory | Unavailable::Size => 0,
        },
    }
}
