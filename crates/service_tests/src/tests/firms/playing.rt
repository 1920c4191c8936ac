//! Firms that are sent what scripts tell.

use super::Firms;
use crate::tests::answers::failing::FrailFirms;
use crate::tests::answers::messages::key_of;
use crate::tests::answers::scripts::{Answers, exchange, joined};
use chain::InUse;
use ledger_http::Reply;
use plain::Book;
use records::{Drain, Source};
use service::{Message, Moments, ServeFault, Settles, respond, respond_round, serve};
use std::alloc::{AllocError, Global};
use std::process::Abort;
use std::test::Fail;
use tenants::{Key, digest};

/// Lists, of which an opening finds nothing.
pub(crate) struct Lists;

impl Settles<InUse<Book>> for Lists {
    fn is_settled(_ledgers: &InUse<Book>) {}
}

impl Firms {
    /// Gives a firm another key, unless a firm has it.
    pub(crate) fn rekey(&mut self, was: &str, key: &str) -> Result<(), &'static str> {
        let was = digest(&Key::read(was.as_bytes()).ok_or("no key")?);
        let digest = digest(&Key::read(key.as_bytes()).ok_or("no key")?);
        if self.ledgers.backend.holds(&digest) {
            return Err("a firm has this key");
        }
        self.ledgers.backend.rekey(&was, &digest);
        Ok(())
    }

    /// The same firms, of whose batches one may be refused.
    pub(crate) fn frail(self) -> FrailFirms {
        let Firms { alloc, ledgers } = self;
        FrailFirms::new(alloc, ledgers)
    }

    /// Plays a script.
    pub(crate) fn play(&mut self, rt: &impl Abort, script: &str) -> Result<(), Fail> {
        let text = joined(self.alloc, script)?;
        for line in text.lines() {
            self.play_line(rt, line)?;
        }
        Ok(())
    }

    fn play_line(&mut self, rt: &impl Abort, line: &str) -> Result<(), &'static str> {
        if let Some((name, "")) = line.split_once(" joins") {
            return self.add(key_of(name));
        }
        match line.split_once(" becomes ") {
            Some((was, name)) => self.rekey(key_of(was), key_of(name)),
            None => exchange(rt, self.alloc, self, line).map_err(|_| "no memory"),
        }
    }

    /// The replies to the messages of one round.
    pub(crate) fn round(&mut self, messages: &[Message]) -> Result<Vec<Reply>, AllocError> {
        respond_round::<InUse<Book>, Lists>(self.alloc, &mut self.ledgers, messages)
    }

    /// Serves a connection.
    pub(crate) fn serve<R: Source, W: Drain, C: Moments>(
        &mut self,
        reader: &mut R,
        writer: &mut W,
        moments: &mut C,
        most: u64,
    ) -> Result<u64, ServeFault> {
        serve(self.alloc, &mut self.ledgers, reader, writer, moments, most)
    }
}

impl Answers for Firms {
    fn answer(&mut self, alloc: Global, bytes: &[u8], moment: u64) -> Reply {
        respond(alloc, &mut self.ledgers, bytes, moment)
    }
}
