//! Steps of serving one client.
ghost use Rattle.std.specs.Prelude.{◌≢◌, ◌≤◌, [], false};
ghost use Rattle.clients.specs.Answering.{IsWanting};
ghost use Rattle.ledger_http.specs.Limits.{longest_message};
ghost use Rattle.service.specs.Seen.{SeenAt};
ghost use Rattle.polling.specs.Serving.{rules};
ghost use Rattle.polling.specs.Seating.{ServesOne};
ghost use Rattle.polling.specs.Steps.{WritesAlone};

use crate::{Peers, Read, Steward, Written};
use chain::Ledgers;
use clients::Client;
use service::Moments;

/// How a client stands behind a step.
#[derive(Clone, Copy, Debug, PartialEq, Eq)]
pub(crate) enum Step {
    /// Something more may be done for it.
    More,
    /// Nothing can be done for it now.
    Waits,
    /// It goes.
    Goes,
}

/// How long a client's next message is; 0 where its head has not come.
pub(crate) fn length_of(client: &Client) -> u64
    ensures { result ≤ longest_message }
{
    match client.announced_length() {
        Some(length) => length as u64,
        None => 0,
    }
}

/// Reads a piece of what a client sends. Where memory is wanting for it, the client goes.
pub(crate) fn read_some<L: Ledgers, H: Steward<L>, C: Moments, P: Peers>(
    peers: &mut P,
    number: u64,
    client: &mut Client,
    piece: &mut [u8],
) -> Step
    requires { IsWanting client.old.unread }
    ensures { (ledgers : SeenAt L) → (moments : C) →
        ServesOne (rules L.means C.gives H.renews H.waits P.does) number
        ledgers moments peers.old client.old ledgers moments peers.new client.new result false 0 }
{
    match peers.read(number, piece) {
        Read::Gave(count) => match client.receive(&piece[..count]) {
            Ok(()) => Step::More,
            Err(_) => Step::Goes,
        },
        Read::Ended => {
            client.end();
            Step::More
        }
        Read::Waits => Step::Waits,
        Read::Broken => Step::Goes,
    }
}

/// Writes what of the reply to a client is not written, as much as is taken at once.
pub(crate) fn write_some<L: Ledgers, H: Steward<L>, C: Moments, P: Peers>(
    peers: &mut P,
    number: u64,
    client: &mut Client,
) -> Step
    requires { client.old.unsent ≢ [] }
    ensures { WritesAlone client.old client.new
        ((ledgers : SeenAt L) → (moments : C) →
        ServesOne (rules L.means C.gives H.renews H.waits P.does) number
        ledgers moments peers.old client.old ledgers moments peers.new client.new result false 0) }
{
    match peers.write(number, client.unsent()) {
        Written::Took(count) => {
            client.wrote(count);
            Step::More
        }
        Written::Waits => Step::Waits,
        Written::Broken => Step::Goes,
    }
}
