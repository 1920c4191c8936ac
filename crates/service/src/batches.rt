//! Batches of events as work on one tenant's tables. The reply's bytes are whole before the batch
//! is kept.
ghost use Rattle.std.specs.Prelude.{◌≡◌, ◌≤◌, Ok, IfOk};
ghost use Rattle.service.specs.Calls.{BeginsOver};
ghost use Rattle.service.specs.Replies.{Gives, ShowsBatch, batch_reply, batch_request, batch_size};

use crate::begun::Begun;
use crate::showing::reply_to;
use chain::{BatchFault, Ledgers, Tables, Work, run_accounts, run_transfers};
use ledger_http::{Refusal, Reply};
use records::{AccountEvent, BatchReply, EventResult, TransferEvent, Unavailable};
use std::alloc::Global;
use wire::{Items, Outcome};

/// The events of a batch.
#[derive(Drop)]
pub(crate) enum BatchEvents {
    Accounts(Items<AccountEvent>),
    Transfers(Items<TransferEvent>),
}

/// A batch of events at a moment, in nanoseconds.
#[derive(Drop)]
struct Batch {
    alloc: Global,
    events: BatchEvents,
    moment: u64,
    ghost few: { batch_size events ≤ 1000 },
}

fn batch_reply(batch: Result<Reply, BatchFault>) -> Reply
    ensures { result ≡ batch_reply batch }
{
    match batch {
        Ok(reply) => reply,
        Err(BatchFault::UnknownKey) => Reply::Fixed(Refusal::UnknownKey),
        Err(BatchFault::Unavailable(_)) => Reply::Fixed(Refusal::Unavailable),
    }
}

impl BatchEvents {
    /// Begins the reply to them, which is whole before what they do is kept.
    pub(crate) fn begin<L: Ledgers>(
        self,
        alloc: Global,
        ledgers: &mut L,
        digest: &[u8; 32],
        moment: u64,
    ) -> Begun
        requires few { batch_size self ≤ 1000 }
        ensures { BeginsOver L.means digest.now (Ok (batch_request self)) moment
            ledgers.old ledgers.new result }
    {
        let work = Batch {
            alloc,
            events: self,
            moment,
        };
        Begun::whole(batch_reply(ledgers.in_batch(digest, work)))
    }
}

// The reply that shows a batch, whose results are shown so.
fn reply_to_batch<R, F: FnOnce(u64, Items<EventResult<R>>) -> Outcome + Drop>(
    alloc: Global,
    batch: BatchReply<R>,
    shows: F,
) -> Result<Reply, Unavailable>
    requires { F.IsAlwaysCallable shows }
    ensures { IfOk result (ShowsBatch (F.post shows) batch) }
{
    match batch {
        BatchReply::ClockExhausted => Ok(Reply::Fixed(Refusal::ClockExhausted)),
        BatchReply::Done { clock, results } => {
            Ok(reply_to(alloc, shows(clock, results.into()))?)
        }
    }
}

impl Work for Batch {
    type Output = Reply;

    ghost gives = { λ work. Gives (batch_request work.events) work.moment };

    fn run<T: Tables>(self, tables: &mut T) -> Result<Reply, Unavailable> {
        let Batch {
            alloc,
            events,
            moment,
        } = self;
        match events {
            BatchEvents::Accounts(events) => {
                let batch = run_accounts(alloc, tables, events.as_slice(), moment)?;
                let shows = |clock, results| Outcome::AccountResults { clock, results };
                reply_to_batch(alloc, batch, shows)
            }
            BatchEvents::Transfers(events) => {
                let batch = run_transfers(alloc, tables, events.as_slice(), moment)?;
                let shows = |clock, results| Outcome::TransferResults { clock, results };
                reply_to_batch(alloc, batch, shows)
            }
        }
    }
}
