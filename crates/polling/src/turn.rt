//! A client's turn.
ghost use Rattle.std.specs.Prelude.{◌≡◌, true, false, not, Some};
ghost use Rattle.clients.specs.Talk.{may_answer};
ghost use Rattle.service.specs.Seen.{SeenAt, Whole};
ghost use Rattle.polling.specs.Serving.{rules};
ghost use Rattle.polling.specs.Seating.{ServesOne, count_of, has_no_more, has_nothing};
ghost use Rattle.polling.specs.Steps.{WritesAlone, MayReadMore, MayReadPart};

use crate::step::{Step, length_of, read_some, write_some};
use crate::{Batch, Peers, Steward};
use chain::Ledgers;
use clients::{Answered, Client, giving_up_replies, whole_ledgers_are_seen};
use parts::Rest;
use service::Moments;
use std::alloc::Global;

/// How often in one turn a client is written to.
const MOST_WRITES: u64 = 64;

/// What a turn came to.
#[derive(Clone, Copy, Debug, PartialEq, Eq)]
pub(crate) struct Turned {
    pub(crate) step: Step,
    /// Whether a message was replied to.
    pub(crate) replied: bool,
}

impl Turned {
    /// How many messages were replied to.
    pub(crate) fn replies(self) -> u64
        ensures { result ≡ count_of self.replied }
    {
        if self.replied { 1 } else { 0 }
    }
}

/// Writes until nothing is left of the reply, or it would wait, or it was written to often enough.
pub(crate) fn write_all<L: Ledgers, H: Steward<L>, C: Moments, P: Peers>(
    peers: &mut P,
    number: u64,
    client: &mut Client,
) -> Step
    ensures { WritesAlone client.old client.new
        ((ledgers : SeenAt L) → (moments : C) →
        ServesOne (rules L.means C.gives H.renews H.waits P.does) number
        ledgers moments peers.old client.old ledgers moments peers.new client.new result
        (has_nothing client.old client.new) 0) }
{
    for _ in 0..MOST_WRITES {
        if client.unsent().is_empty() {
            return Step::More;
        }
        match write_some::<L, H, C, P>(peers, number, client) {
            Step::More => {}
            Step::Waits => return Step::Waits,
            Step::Goes => return Step::Goes,
        }
    }
    Step::More
}

/// Reads the next part of the reply to a client, and writes of it. Where it can't be read the
/// client goes, and its reply stays cut short.
fn read_part<L: Ledgers, H: Steward<L>, C: Moments, P: Peers>(
    alloc: Global,
    peers: &mut P,
    number: u64,
    client: &mut Client,
    ledgers: &mut L,
    rest: &Rest,
) -> Step
    requires { MayReadPart client.old rest.now }
    ensures { (moments : C) → ServesOne (rules L.means C.gives H.renews H.waits P.does) number
        (Whole ledgers.old) moments peers.old client.old
        (Whole ledgers.new) moments peers.new client.new result false 0 }
{
    let Some(part) = H::reads(alloc, ledgers, rest) else {
        return Step::Goes;
    };
    client.put_part(part);
    write_all::<L, H, C, P>(peers, number, client)
}

/// Writes what is left of the reply to a client, as `write_all` does. Where nothing is, but a part
/// is left to be read, that is read and written of.
pub(crate) fn write_on<L: Ledgers, H: Steward<L>, C: Moments, P: Peers>(
    alloc: Global,
    peers: &mut P,
    number: u64,
    client: &mut Client,
    ledgers: &mut L,
) -> Step
    ensures { (moments : C) → ServesOne (rules L.means C.gives H.renews H.waits P.does) number
        (Whole ledgers.old) moments peers.old client.old
        (Whole ledgers.new) moments peers.new client.new result
        (has_no_more client.old client.new) 0 }
{
    match write_all::<L, H, C, P>(peers, number, client) {
        Step::More => {}
        Step::Waits => return Step::Waits,
        Step::Goes => return Step::Goes,
    }
    if !client.unsent().is_empty() {
        return Step::More;
    }
    match client.rest() {
        Some(rest) => read_part::<L, H, C, P>(alloc, peers, number, client, ledgers, &rest),
        None => Step::More,
    }
}

/// Reads more of a client's next message. Those who are connected are told first how long it is.
/// Where memory is wanting for a body that is due, the last reply says so.
fn read_or_give_up<L: Ledgers, H: Steward<L>, C: Moments, P: Peers>(
    peers: &mut P,
    number: u64,
    client: &mut Client,
    ledgers: &L,
    piece: &mut [u8],
) -> Turned
    requires { MayReadMore client.old }
    ensures { (moments : C) → ServesOne (rules L.means C.gives H.renews H.waits P.does) number
        (Whole ledgers.now) moments peers.old client.old
        (Whole ledgers.now) moments peers.new client.new result.step false
        (count_of result.replied) }
{
    match client.reserve_due(piece.len()) {
        Ok(count) => {
            peers.wants(number, length_of(client));
            Turned {
                step: read_some::<L, H, C, P>(peers, number, client, &mut piece[..count]),
                replied: false,
            }
        }
        Err(_) => {
            giving_up_replies::<L, C>();
            whole_ledgers_are_seen::<L, C>();
            H::is_settled(ledgers);
            client.give_up();
            peers.answered(number, None, client.unsent());
            Turned {
                step: write_all::<L, H, C, P>(peers, number, client),
                replied: true,
            }
        }
    }
}

/// Answers the next message of a client, or reads more of it where that has not come. The reply is
/// handed to those who are connected before any of it is written.
pub(crate) fn answer_or_read<L: Ledgers, H: Steward<L>, C: Moments, P: Peers>(
    alloc: Global,
    peers: &mut P,
    number: u64,
    client: &mut Client,
    ledgers: &mut L,
    moments: &mut C,
    piece: &mut [u8],
    batch: Option<Batch>,
) -> Turned
    requires { may_answer client.old ≡ true }
    ensures { ServesOne (rules L.means C.gives H.renews H.waits P.does) number
        (Whole ledgers.old) moments.old peers.old client.old
        (Whole ledgers.new) moments.new peers.new client.new result.step false
        (count_of result.replied) }
{
    match client.answer(alloc, ledgers, moments) {
        Answered::Replied => {
            whole_ledgers_are_seen::<L, C>();
            H::is_settled(ledgers);
            peers.answered(number, batch, client.unsent());
            Turned {
                step: write_all::<L, H, C, P>(peers, number, client),
                replied: true,
            }
        }
        Answered::Wanting => {
            read_or_give_up::<L, H, C, P>(peers, number, client, ledgers, piece)
        }
        Answered::Over => Turned {
            step: Step::Goes,
            replied: false,
        },
    }
}

/// Writes what is left of the reply to a client. Where nothing is, it has its turn, if it may be
/// answered.
pub(crate) fn finish<L: Ledgers, H: Steward<L>, C: Moments, P: Peers>(
    alloc: Global,
    peers: &mut P,
    number: u64,
    client: &mut Client,
    ledgers: &mut L,
    moments: &mut C,
    piece: &mut [u8],
    answers: bool,
) -> Turned
    ensures turn { ServesOne (rules L.means C.gives H.renews H.waits P.does) number
        (Whole ledgers.old) moments.old peers.old client.old
        (Whole ledgers.new) moments.new peers.new client.new result.step (not answers)
        (count_of result.replied) }
    ensures few { answers ≡ false → result.replied ≡ false }
{
    if answers && client.is_written() {
        return turn::<L, H, C, P>(alloc, peers, number, client, ledgers, moments, piece);
    }
    Turned {
        step: write_on::<L, H, C, P>(alloc, peers, number, client, ledgers),
        replied: false,
    }
}

/// A client's turn: what is left of the last reply is written, and one message at most answered, or
/// a piece read of it. A turn in which a part was left to be read answers nothing. Behind the last
/// reply of all the client goes.
pub(crate) fn turn<L: Ledgers, H: Steward<L>, C: Moments, P: Peers>(
    alloc: Global,
    peers: &mut P,
    number: u64,
    client: &mut Client,
    ledgers: &mut L,
    moments: &mut C,
    piece: &mut [u8],
) -> Turned
    ensures { ServesOne (rules L.means C.gives H.renews H.waits P.does) number
        (Whole ledgers.old) moments.old peers.old client.old
        (Whole ledgers.new) moments.new peers.new client.new result.step false
        (count_of result.replied) }
{
    let is_told_in_parts = client.rest().is_some();
    match write_on::<L, H, C, P>(alloc, peers, number, client, ledgers) {
        Step::More => {}
        Step::Waits => {
            return Turned {
                step: Step::Waits,
                replied: false,
            };
        }
        Step::Goes => {
            return Turned {
                step: Step::Goes,
                replied: false,
            };
        }
    }
    if is_told_in_parts {
        return Turned {
            step: Step::More,
            replied: false,
        };
    }
    if client.may_answer() {
        let batch = Batch::next_of(client);
        return answer_or_read::<L, H, C, P>(
            alloc, peers, number, client, ledgers, moments, piece, batch,
        );
    }
    if client.goes_on() || !client.is_written() {
        return Turned {
            step: Step::More,
            replied: false,
        };
    }
    Turned {
        step: Step::Goes,
        replied: false,
    }
}
