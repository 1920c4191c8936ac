//! Messages that are answered together, as the work of one round.
ghost use Rattle.std.specs.Prelude.{◌≡◌};
ghost use Rattle.service.specs.Calls.{RespondsOver};
ghost use Rattle.service.specs.Courses.{is_unavailable};
ghost use Rattle.service.specs.Turns.{TakeTurns};

use crate::responding::respond;
use chain::{Ledgers, RoundWork};
use ledger_http::{Refusal, Reply};
use records::Unavailable;
use std::alloc::Global;

/// A whole message, and its moment in nanoseconds.
#[derive(Drop)]
pub struct Message {
    pub bytes: Vec<u8>,
    pub moment: u64,
}

impl Message {
    /// The reply to it, as `respond` gives it.
    pub(crate) fn respond<L: Ledgers>(&self, alloc: Global, ledgers: &mut L) -> Reply
        ensures { RespondsOver L.means self.now.bytes.items self.now.moment
            ledgers.old ledgers.new result }
    {
        respond(alloc, ledgers, self.bytes.as_slice(), self.moment)
    }
}

/// Messages in turn, each answered as if it had come alone. Where one cannot be, none is.
#[derive(Drop)]
pub struct Turns<'a> {
    pub alloc: Global,
    pub messages: &'a [Message],
}

fn is_unavailable(reply: &Reply) -> bool
    ensures { result ≡ is_unavailable reply.now }
{
    matches!(reply, Reply::Fixed(Refusal::Unavailable))
}

impl RoundWork for Turns<'_> {
    type Output = Vec<Reply>;

    ghost gives = { λ turns old replies new.
        TakeTurns turns.messages.now old replies.items new };

    fn run<L: Ledgers>(self, ledgers: &mut L) -> Result<Vec<Reply>, Unavailable> {
        let mut replies = Vec::with_capacity(self.alloc, self.messages.len())?;
        for message in self.messages {
            let reply = message.respond(self.alloc, ledgers);
            if is_unavailable(&reply) {
                return Err(Unavailable::Memory);
            }
            replies.push_reserved(reply);
        }
        Ok(replies)
    }
}
