//! Firms that answer one client at a time.

use super::{Always, Firms};
use chain::ReadFault;
use clients::{Answered, Client};
use parts::{Part, Rest};

impl Firms {
    /// Answers a client, if it may be answered.
    pub(crate) fn answer_client(&mut self, client: &mut Client) -> Option<Answered> {
        if !client.may_answer() {
            return None;
        }
        Some(client.answer(self.alloc, &mut self.ledgers, &mut Always(1000)))
    }

    /// The next part of a statement.
    pub(crate) fn part(&mut self, rest: &Rest) -> Result<Part, ReadFault> {
        rest.part(self.alloc, &mut self.ledgers, b"")
    }
}
