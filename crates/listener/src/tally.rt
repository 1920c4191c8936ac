//! What a service has done.
ghost use Rattle.std.specs.Prelude.{◌≡◌, ◌≢◌, ◌+◌, max, Some, slice_get};
ghost use Rattle.std.specs.Duration.{as_nanos};
ghost use Rattle.listener.specs.Tally.{tried, up_to_most, with_events};

use crate::events::Events;
use command_texts::Fault;
use polling::Batch;
use std::time::Duration;

/// Where the status stands in a reply, behind "HTTP/1.1 ".
const STATUS: usize = 9;

/// What a service has done since it began. No number goes beyond 2^64 - 1.
#[derive(Clone, Copy, Debug, PartialEq, Eq)]
pub struct Tally {
    /// Replies that tell what was asked for: their status begins with 2.
    pub told: u64,
    /// Replies that refuse the message: all others.
    pub refused: u64,
    /// Replies that tell a failure of the service: their status begins with 5.
    pub failed: u64,
    /// Of batches of accounts.
    pub accounts: Events,
    /// Of batches of transfers.
    pub transfers: Events,
    /// How often several messages were answered together.
    pub rounds: u64,
    /// How many messages were.
    pub shared: u64,
    /// How often the file was opened again.
    pub reopened: u64,
    /// How often that was refused.
    pub closed: u64,
    /// The status with which a command ends that tells the last refusal, 0 where there was none.
    pub last_refusal: u8,
    /// The time of all turns.
    pub busy: Duration,
    /// That of the longest one.
    pub longest: Duration,
}

impl Tally {
    /// Nothing was done.
    pub(crate) fn new() -> Tally {
        Tally {
            told: 0,
            refused: 0,
            failed: 0,
            accounts: Events::none(),
            transfers: Events::none(),
            rounds: 0,
            shared: 0,
            reopened: 0,
            closed: 0,
            last_refusal: 0,
            busy: Duration::ZERO,
            longest: Duration::ZERO,
        }
    }

    /// A reply is told that begins so.
    pub(crate) fn replied(&mut self, reply: &[u8])
        ensures told { slice_get reply.now 9 ≡ Some 50
            → self.new ≡ record self.old { told = up_to_most (self.old.told + 1) } }
        ensures failed { slice_get reply.now 9 ≡ Some 53
            → self.new ≡ record self.old { failed = up_to_most (self.old.failed + 1) } }
        ensures refused { slice_get reply.now 9 ≢ Some 50 → slice_get reply.now 9 ≢ Some 53
            → self.new ≡ record self.old { refused = up_to_most (self.old.refused + 1) } }
    {
        match reply.get(STATUS) {
            Some(b'2') => self.told = self.told.saturating_add(1),
            Some(b'5') => self.failed = self.failed.saturating_add(1),
            _ => self.refused = self.refused.saturating_add(1),
        }
    }

    /// A batch was answered, in which there were these events.
    pub(crate) fn answered(&mut self, batch: Batch, events: Events)
        ensures { self.new ≡ with_events batch events self.old }
    {
        match batch {
            Batch::Accounts => self.accounts = self.accounts.with(events),
            Batch::Transfers => self.transfers = self.transfers.with(events),
        }
    }

    /// So many messages were answered together.
    pub(crate) fn answered_together(&mut self, messages: u64)
        ensures { self.new ≡ record self.old {
          rounds = up_to_most (self.old.rounds + 1);
          shared = up_to_most (self.old.shared + messages);
        } }
    {
        self.rounds = self.rounds.saturating_add(1);
        self.shared = self.shared.saturating_add(messages);
    }

    /// Counts an attempt to open the file again, which has succeeded or was refused for this.
    pub fn tried(&mut self, refused: Option<Fault>)
        ensures { self.new ≡ tried refused self.old }
    {
        match refused {
            None => self.reopened = self.reopened.saturating_add(1),
            Some(fault) => {
                self.closed = self.closed.saturating_add(1);
                self.last_refusal = fault.status();
            }
        }
    }

    /// A turn has taken so long.
    pub(crate) fn turned(&mut self, took: Duration)
        ensures longest { as_nanos self.new.longest ≡ max (as_nanos self.old.longest)
            (as_nanos took) }
    {
        self.busy = self.busy.saturating_add(took);
        self.longest = self.longest.max(took);
    }
}
