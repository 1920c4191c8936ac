//! Serving many clients, until so many messages were replied to, or it is asked to end.
ghost use Rattle.std.specs.Prelude.{◌≡◌, Bool, Ok, IfErr, IsTrue};
ghost use Rattle.service.specs.Seen.{Whole};
ghost use Rattle.polling.specs.Serving.{rules};
ghost use Rattle.commands.specs.Serving.{ServesClients};

use chain::Rounds;
use command_texts::Fault;
use polling::{
    Peers, Seats, Steward, each_is_served, moments_rise, only_what_is_asked_is_booked, serve_ready,
    serving_begins_empty, serving_goes_on, serving_is_a_course, write_rest,
};
use service::Moments;
use std::alloc::Global;

/// How many bytes are read of a client at once.
const PIECE: usize = 65_536;

/// Who may ask that serving ends.
pub(crate) trait Stops {
    // Whether it is asked.
    ghost stops: { Self → Bool };

    fn is_stopping(&self) -> bool
        ensures { result ≡ stops self.now };
}

/// Why serving has ended.
#[derive(Clone, Copy, Debug, PartialEq, Eq)]
pub enum Served {
    /// As many messages were replied to as there were to be.
    Enough,
    /// It was asked to end.
    Stopped,
}

/// Serves those who are connected, until `most` messages were replied to, or nothing more has
/// happened and `home` says that it is to end; then what is left of replies is written. `Socket`
/// where fewer were in 2^64 - 1 rounds.
pub(crate) fn serve_clients<L: Rounds, H: Steward<L> + Stops, C: Moments, P: Peers>(
    alloc: Global,
    peers: &mut P,
    ledgers: &mut L,
    home: &mut H,
    moments: &mut C,
    most: u64,
) -> Result<Served, Fault>
    ensures served { ServesClients (rules L.means C.gives H.renews H.waits P.does)
        (Whole ledgers.old) moments.old peers.old most (Whole ledgers.new) moments.new peers.new
        result }
    ensures stopped { result ≡ Ok Served.Stopped → IsTrue (H.stops home.new) }
    ensures fault { IfErr result (λ fault. fault ≡ Fault.Socket) }
{
    serving_begins_empty::<L, C, P>();
    each_is_served::<L, H, C, P>();
    serving_is_a_course::<L, H, C, P>();
    only_what_is_asked_is_booked::<L, H, C, P>();
    moments_rise::<L, H, C, P>();
    serving_goes_on::<L, H, C, P>();
    H::is_settled(ledgers);
    let mut seats = Seats::new(alloc);
    let mut piece = [0; PIECE];
    let mut left = most;
    for _ in 0..u64::MAX {
        left -= serve_ready(
            alloc, peers, &mut seats, ledgers, home, moments, &mut piece, left,
        );
        let served = if left == 0 {
            Served::Enough
        } else if home.is_stopping() {
            Served::Stopped
        } else {
            continue;
        };
        write_rest::<L, H, C, P>(alloc, peers, &mut seats, ledgers);
        return Ok(served);
    }
    Err(Fault::Socket)
}
