//! Firms in memory of which a batch is refused, as each piece of a statement is one.

use super::scripts::Answers;
use crate::tests::frail::Frail;
use chain::{InUse, Ledgers, ReadFault};
use failing_streams::TakenRows;
use ledger_http::Reply;
use parts::{Part, Rest};
use plain::Book;
use records::{Order, StatementRow};
use service::{Begun, begin, respond};
use std::alloc::Global;

/// Firms of whose batches one may be refused.
pub(crate) struct FrailFirms {
    alloc: Global,
    pub(crate) ledgers: Frail,
}

// It is written out, so that who lets firms go does not prove again how each part is dropped.
impl Drop for FrailFirms {
    fn drop(self) {
        let FrailFirms {
            alloc: _,
            ledgers: _,
        } = self;
    }
}

impl FrailFirms {
    /// Firms of whose batches none is refused so far.
    pub(crate) fn new(alloc: Global, ledgers: InUse<Book>) -> FrailFirms {
        FrailFirms {
            alloc,
            ledgers: Frail::new(ledgers, None),
        }
    }

    /// No firm, and ledgers that have failed.
    pub(crate) fn failed(alloc: Global) -> FrailFirms {
        let ledgers = InUse {
            backend: Book::new(alloc),
        };
        let mut firms = FrailFirms::new(alloc, ledgers);
        firms.ledgers.is_shut = true;
        firms
    }

    /// The rows of a statement that came, and how it ended.
    pub(crate) fn rows(
        &mut self,
        digest: &[u8; 32],
        account: u128,
        order: Order,
    ) -> (Vec<StatementRow>, Result<(), ReadFault>) {
        let mut rows = TakenRows {
            taken: Vec::new(self.alloc),
            room: usize::MAX,
        };
        let ended = self
            .ledgers
            .each_statement_row(self.alloc, digest, account, order, &mut rows);
        (rows.taken, ended)
    }

    /// Begins the reply to a message.
    pub(crate) fn begin(&mut self, bytes: &[u8]) -> Begun {
        begin(self.alloc, &mut self.ledgers, bytes, 0)
    }

    /// The next part of a statement.
    pub(crate) fn part(&mut self, rest: &Rest) -> Result<Part, ReadFault> {
        rest.part(self.alloc, &mut self.ledgers, b"")
    }
}

impl Answers for FrailFirms {
    fn answer(&mut self, alloc: Global, bytes: &[u8], moment: u64) -> Reply {
        respond(alloc, &mut self.ledgers, bytes, moment)
    }
}
