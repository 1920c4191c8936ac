//! One client.
ghost use Rattle.std.specs.Prelude.{◌≡◌, ◌≤◌, true, false, length, take, OnOk, OnErr, IsTrue};
ghost use Rattle.ledger_http.specs.Message.{IsAnnounced};
ghost use Rattle.clients.specs.Talk.{new_talk, received, input_ended, written, may_answer, given_up};
ghost use Rattle.clients.specs.Talk.{continued, is_written};
ghost use Rattle.clients.specs.Calls.{AnswersOn, TellsSize, TellsLength, MakesRoom};
ghost use Rattle.clients.specs.Answering.{HasAnswered};
ghost use Rattle.clients.specs.Within.{IsRepliedTo};

use crate::exchanging::{Exchanged, exchange};
use crate::outbox::Outbox;
use chain::Ledgers;
use ledger_http::{Inbox, Next, Refusal, Reply, is_closing};
use parts::{Part, Rest};
use service::Moments;
use std::alloc::{AllocError, Global};
use std::marker::Model;

/// What came of answering a client.
#[derive(Clone, Copy, Debug, PartialEq, Eq)]
pub enum Answered {
    /// The reply to its next message is to be written.
    Replied,
    /// Its next message is not whole: more has to come.
    Wanting,
    /// All its messages are answered, and no more can come.
    Over,
}

/// One client: what came from it, and the one reply that is being written.
///
/// No further message is answered before that reply is written. So answering needs no memory that
/// could be wanting once the ledgers have changed, and a client cannot pile up replies.
#[derive(Drop)]
pub struct Client {
    inbox: Inbox,
    outbox: Outbox,
    // What of the reply is left to be read.
    rest: Option<Rest>,
    // Whether another message is answered behind the reply.
    goes_on: bool,
}

impl Model for Client {
    ghost use Rattle.clients.specs.Talk.{Talk};

    ghost Value = { Talk };

    ghost view = { λ client. record {
      unread = client.inbox;
      unsent = client.outbox;
      rest = client.rest;
      goes_on = client.goes_on;
    } };
}

impl Client {
    /// A client from which nothing has come.
    pub fn new(alloc: Global) -> Client
        ensures { result ≡ new_talk }
    {
        Client {
            inbox: Inbox::new(alloc),
            outbox: Outbox::new(),
            rest: None,
            goes_on: true,
        }
    }

    /// Whether its input has ended.
    pub fn has_ended(&self) -> bool
        ensures { result ≡ self.now.unread.ended }
    {
        self.inbox.has_ended()
    }

    /// Puts a piece behind what has come.
    pub fn receive(&mut self, piece: &[u8]) -> Result<(), AllocError>
        requires { self.old.unread.ended ≡ false }
        ensures ok { OnOk result (self.new ≡ received piece.now self.old) }
        ensures err { OnErr result (self.new ≡ self.old) }
    {
        self.inbox.receive(piece)
    }

    /// Its input has ended.
    pub fn end(&mut self)
        ensures { self.new ≡ input_ended self.old }
    {
        self.inbox.end();
    }

    /// Whether nothing of its last reply is left.
    pub fn is_written(&self) -> bool
        ensures { result ≡ is_written self.now }
    {
        self.outbox.is_empty() && self.rest.is_none()
    }

    /// Whether its next message may be answered: the last reply is written, and was not the last
    /// of all.
    pub fn may_answer(&self) -> bool
        ensures { result ≡ may_answer self.now }
    {
        self.goes_on && self.is_written()
    }

    /// Answers its next message, if that is there. What is refused while it is read, as a message
    /// that is cut short where the input ends, asks for no moment, and no message is answered
    /// behind it.
    pub fn answer<L: Ledgers, C: Moments>(
        &mut self,
        alloc: Global,
        ledgers: &mut L,
        moments: &mut C,
    ) -> Answered
        requires { may_answer self.old ≡ true }
        ensures { AnswersOn L.means ledgers.old ledgers.new
            (HasAnswered L.means C.gives ledgers.old moments.old self.old
            ledgers.new moments.new self.new result) }
    {
        match exchange(alloc, ledgers, moments, &mut self.inbox) {
            Exchanged::Answered(begun, goes_on) => {
                self.outbox.put(begun.front);
                self.rest = begun.rest;
                self.goes_on = goes_on;
                Answered::Replied
            }
            Exchanged::Refused(refusal) => {
                self.outbox.put(Reply::Fixed(refusal));
                self.rest = None;
                self.goes_on = false;
                Answered::Replied
            }
            Exchanged::Wanting => Answered::Wanting,
            Exchanged::Over => Answered::Over,
        }
    }

    /// How many bytes its next message has, where all of it has come.
    pub fn next_size(&mut self) -> Option<usize>
        ensures { TellsSize self.old self.new result }
    {
        match self.inbox.next() {
            Next::Whole(size) => Some(size),
            Next::Refused(_) => None,
            Next::Wanting => None,
            Next::End => None,
        }
    }

    /// The first bytes of what is not answered.
    pub fn front(&self, size: usize) -> &[u8]
        requires { size ≤ length self.now.unread.bytes }
        ensures { result.now ≡ take size self.now.unread.bytes }
    {
        self.inbox.front(size)
    }

    /// Answers its next message, of `size` bytes: this reply is to be written. It is the last, if
    /// the message says so.
    pub fn put_reply(&mut self, size: usize, reply: Reply)
        requires { size ≤ length self.old.unread.bytes }
        ensures { IsRepliedTo size reply self.old self.new }
    {
        self.goes_on = !is_closing(self.inbox.front(size));
        self.inbox.take(size);
        self.outbox.put(reply);
        self.rest = None;
    }

    /// What of its reply is left to be read, if anything is.
    pub fn rest(&self) -> Option<Rest>
        ensures { result ≡ self.now.rest }
    {
        self.rest
    }

    /// The next part of its reply is to be written.
    pub fn put_part(&mut self, part: Part)
        ensures { self.new ≡ continued part self.old }
    {
        self.outbox.put(Reply::Whole(part.chunks));
        self.rest = part.rest;
    }

    /// Whether a good head was found first, behind which a body of allowed length is due.
    pub fn is_announced(&self) -> bool
        ensures { IsTrue result → IsAnnounced self.now.unread.bytes }
    {
        self.inbox.is_announced()
    }

    /// How long its next message is with its head, where a good head was found and a body of
    /// allowed length is due behind it.
    pub fn announced_length(&self) -> Option<usize>
        ensures { TellsLength self.now result }
    {
        self.inbox.announced_length()
    }

    /// Where a body is due, makes room for what is wanting of it, up to so many bytes. Says how
    /// many bytes to receive. It fails only where a body is due.
    pub fn reserve_due(&mut self, most: usize) -> Result<usize, AllocError>
        ensures { MakesRoom self.old self.new most result }
    {
        self.inbox.reserve_due(most)
    }

    /// Memory is wanting for the body that is due: the last reply says so.
    pub fn give_up(&mut self)
        requires open { may_answer self.old ≡ true }
        requires due { IsAnnounced self.old.unread.bytes }
        ensures { self.new ≡ given_up self.old }
    {
        self.outbox.put(Reply::Fixed(Refusal::Unavailable));
        self.rest = None;
        self.goes_on = false;
    }

    /// The bytes of the reply that are not written.
    pub fn unsent(&self) -> &[u8]
        ensures { result.now ≡ self.now.unsent }
    {
        self.outbox.unsent()
    }

    /// So many of them are written.
    pub fn wrote(&mut self, count: usize)
        requires { count ≤ length self.old.unsent }
        ensures { self.new ≡ written count self.old }
    {
        self.outbox.wrote(count);
    }

    /// Whether another message is answered behind the reply.
    pub fn goes_on(&self) -> bool
        ensures { result ≡ self.now.goes_on }
    {
        self.goes_on
    }
}
