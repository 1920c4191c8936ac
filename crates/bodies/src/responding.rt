ghost use Rattle.bodies.specs.Answer.{GivesPlain};
ghost use Rattle.bodies.specs.Response.{IsResponse, ResponsesLeadOn, IsolatesBodies};

use crate::plain_reply::PlainReply;
use chain::{BatchFault, BatchReply, Tables, Work, run_transfers};
use ledger_http::Refusal;
use plain::Book;
use records::Unavailable;
use service::each_tenant_sees_itself;
use std::alloc::Global;
use wire::{batch_text_transfers, read_transfers};

/// A body of transfers, read and run at a moment in nanoseconds.
#[derive(Drop)]
struct Transfers<'a> {
    alloc: Global,
    body: &'a [u8],
    moment: u64,
}

impl Work for Transfers<'_> {
    type Output = PlainReply;

    ghost gives = { λ work. GivesPlain work.body.now work.moment };

    fn run<T: Tables>(self, tables: &mut T) -> Result<PlainReply, Unavailable> {
        let events = match read_transfers(self.alloc, self.body) {
            Ok(events) => events,
            Err(Refusal::Unavailable) => return Err(Unavailable::Memory),
            Err(refusal) => return Ok(PlainReply::Refused(refusal)),
        };
        match run_transfers(self.alloc, tables, &events, self.moment)? {
            BatchReply::ClockExhausted => Ok(PlainReply::Refused(Refusal::ClockExhausted)),
            BatchReply::Done { clock, results } => {
                Ok(PlainReply::Body(batch_text_transfers(self.alloc, clock, &results)?))
            }
        }
    }
}

/// Answers a body of transfers for the tenant with this digest, at a moment in nanoseconds. Unless
/// it is unavailable, the reply and the tenant's list after it depend on that tenant's list, the
/// body and the moment alone, and all other lists stay; if it is, nothing changed.
pub fn respond_plain(
    alloc: Global,
    book: &mut Book,
    digest: &[u8; 32],
    body: &[u8],
    moment: u64,
) -> PlainReply
    ensures { IsResponse digest.now body.now moment book.old book.new result }
{
    let work = Transfers {
        alloc,
        body,
        moment,
    };
    match book.batch(digest, work) {
        Ok(reply) => reply,
        Err(BatchFault::UnknownKey) => PlainReply::Refused(Refusal::UnknownKey),
        Err(BatchFault::Unavailable(_)) => PlainReply::Unavailable,
    }
}

/// A response is an event of every course that has led to its book. So bodies, one after the other
/// and of any tenants, are a course, of which each tenant sees its own alone. It does nothing:
/// `respond_plain` gives its premises.
pub fn responses_lead_on()
    ensures { ResponsesLeadOn }
{}

/// The law of isolation: for any two books that agree on a digest's list and clock, the same body
/// at the same moment gives the same answer and leaves the same list, and every other list stays,
/// unless one of them answers that it is unavailable. It does nothing: `respond_plain` gives its
/// premises.
pub fn isolates()
    ensures { IsolatesBodies }
{
    responses_lead_on();
    each_tenant_sees_itself();
}
