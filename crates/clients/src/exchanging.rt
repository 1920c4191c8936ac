//! One message of what has come from a client, and its reply.
ghost use Rattle.clients.specs.Calls.{AnswersOn};
ghost use Rattle.clients.specs.Answering.{ExchangesFirst};

use chain::Ledgers;
use ledger_http::{Inbox, Next, Refusal, is_closing, later_bytes_change_nothing};
use service::{Begun, Moments, begin};
use std::alloc::Global;

/// What came of looking for a message.
#[derive(Drop)]
pub(crate) enum Exchanged {
    /// The reply to a message that was taken, and whether the connection goes on after it.
    Answered(Begun, bool),
    /// What comes next is no message that is taken: the last reply.
    Refused(Refusal),
    /// The next message is not whole.
    Wanting,
    /// The input has ended, and nothing is left of it.
    Over,
}

/// Answers the next message, if it is there.
pub(crate) fn exchange<L: Ledgers, C: Moments>(
    alloc: Global,
    ledgers: &mut L,
    moments: &mut C,
    inbox: &mut Inbox,
) -> Exchanged
    ensures { AnswersOn L.means ledgers.old ledgers.new
        (ExchangesFirst L.means C.gives ledgers.old moments.old inbox.old
        ledgers.new moments.new inbox.new result) }
{
    later_bytes_change_nothing();
    match inbox.next() {
        Next::Whole(size) => {
            let moment = moments.moment();
            let front = inbox.front(size);
            let goes_on = !is_closing(front);
            let begun = begin(alloc, ledgers, front, moment);
            inbox.take(size);
            Exchanged::Answered(begun, goes_on)
        }
        Next::Refused(refusal) => Exchanged::Refused(refusal),
        Next::Wanting => Exchanged::Wanting,
        Next::End => Exchanged::Over,
    }
}
