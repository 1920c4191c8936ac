ghost use Rattle.std.specs.Prelude.{◌≡◌, Ok, IfOk};
ghost use Rattle.ledger_http.specs.ReplyText.{reply_text};
ghost use Rattle.wire.specs.Reply.{clock_and_list, linted_data, list_and_clock, page_data};
ghost use Rattle.wire.specs.Told.{json_text, outcome_text};

use crate::batch_text::{batch_text_accounts, batch_text_transfers};
use crate::detailed::detailed_reply;
use crate::listed::list_text;
use crate::members::{Member, object_text};
use crate::page_text::page_text;
use crate::shown::{Plain, Shown};
use crate::{Entries, Outcome};
use ledger_http::{ContentType, Refusal, Reply};
use std::alloc::{AllocError, Global};

/// Memory ran out.
pub type NoMemory = AllocError;

/// The reply that shows an outcome. A refusal's that does not say where is constant and takes no
/// memory.
pub fn reply_bytes(alloc: Global, outcome: &Outcome) -> Result<Reply, NoMemory>
    ensures ok { IfOk result (λ reply. reply_text reply ≡ outcome_text outcome.now) }
    ensures refused { (refusal : Refusal) → outcome.now ≡ Outcome.Refused refusal
        → result ≡ Ok (Reply.Fixed refusal) }
{
    match outcome {
        Outcome::Refused(refusal) => Ok(Reply::Fixed(*refusal)),
        Outcome::Detailed(refusal, fault) => detailed_reply(alloc, *refusal, fault),
        Outcome::AccountResults { clock, results } => {
            let body = batch_text_accounts(alloc, *clock, results.as_slice())?;
            Reply::of_body(alloc, ContentType::Json, &body)
        }
        Outcome::TransferResults { clock, results } => {
            let body = batch_text_transfers(alloc, *clock, results.as_slice())?;
            Reply::of_body(alloc, ContentType::Json, &body)
        }
        Outcome::Accounts { clock, accounts } => {
            list_and_clock(alloc, *clock, "accounts", accounts.as_slice())
        }
        Outcome::Transfers { clock, transfers } => {
            clock_and_list(alloc, *clock, "transfers", transfers.as_slice())
        }
        Outcome::Balances { clock, balances } => {
            list_and_clock(alloc, *clock, "balances", balances.as_slice())
        }
        Outcome::Page {
            clock,
            next,
            entries,
        } => page_reply(alloc, *clock, *next, entries),
        Outcome::Holds { clock, holds } => {
            clock_and_list(alloc, *clock, "pending", holds.as_slice())
        }
        Outcome::Statement(chunks) => {
            Reply::of_chunks(alloc, ContentType::Csv, chunks.as_slice())
        }
        Outcome::Linted(events) => linted_reply(alloc, *events),
    }
}

// The reply that shows a clock, and a list under a name that comes after `clock`.
fn clock_and_list<T: Shown>(
    alloc: Global,
    clock: u64,
    name: &str,
    list: &[T],
) -> Result<Reply, NoMemory>
    ensures { IfOk result (λ reply.
        reply_text reply ≡ json_text (clock_and_list T.shows clock name.now list.now)) }
{
    let clock = [Member::u64("clock", clock)];
    let body = list_text::<_, Plain>(alloc, &clock, name, list, &[])?;
    Reply::of_body(alloc, ContentType::Json, &body)
}

// The same under a name that comes before it.
fn list_and_clock<T: Shown>(
    alloc: Global,
    clock: u64,
    name: &str,
    list: &[T],
) -> Result<Reply, NoMemory>
    ensures { IfOk result (λ reply.
        reply_text reply ≡ json_text (list_and_clock T.shows clock name.now list.now)) }
{
    let clock = [Member::u64("clock", clock)];
    let body = list_text::<_, Plain>(alloc, &[], name, list, &clock)?;
    Reply::of_body(alloc, ContentType::Json, &body)
}

// The reply that shows how many events a good body has.
fn linted_reply(alloc: Global, events: usize) -> Result<Reply, NoMemory>
    ensures { IfOk result (λ reply. reply_text reply ≡ json_text (linted_data events)) }
{
    let body = object_text(alloc, &[Member::number("events", events as u64)])?;
    Reply::of_body(alloc, ContentType::Json, &body)
}

fn page_reply(alloc: Global, clock: u64, next: u64, entries: &Entries) -> Result<Reply, NoMemory>
    ensures { IfOk result (λ reply.
        reply_text reply ≡ json_text (page_data clock next entries.now)) }
{
    let body = page_text(alloc, clock, next, entries)?;
    Reply::of_body(alloc, ContentType::Json, &body)
}
