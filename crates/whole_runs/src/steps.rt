//! The steps of a run, and their answers.

use ledger_http::Reply;
use service::Message;
use store::{AddTenant, ChangeKey, Refused};
use tenants::TenantName;
use wire::NoMemory;

/// A step of a run.
#[derive(Drop)]
pub enum Step {
    /// A message, and its moment in nanoseconds.
    Request(Vec<u8>, u64),
    /// Messages that are answered in one round.
    Round(Vec<Message>),
    /// The name of a new tenant, and the digest by which it is to be known.
    AddTenant(TenantName, [u8; 32]),
    /// The name of a tenant, and the digest by which it is to be known from then on.
    ChangeKey(TenantName, [u8; 32]),
    /// The ledgers are closed and opened again.
    Reopen,
}

/// The answer to a step.
#[derive(Drop)]
pub enum Answer {
    Replied(Reply),
    /// A reply to each message, in order; or memory lacks for the replies, and nothing was done.
    Round(Result<Vec<Reply>, NoMemory>),
    Added(Result<(), AddTenant>),
    Keyed(Result<(), ChangeKey>),
    Reopened(Result<(), Refused>),
}
