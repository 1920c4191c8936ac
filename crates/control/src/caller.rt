//! Who is connected to the operator's socket.
ghost use Rattle.std.specs.Prelude.{◌≡◌, ◌≤◌, IfOk, IfSome, length, ℕ};
ghost use Rattle.control.specs.Moves.{IsAtMost};

use crate::Order;
use crate::orders::order_in;
use crate::refusal::Refusal;
use crate::reply::{refusal_reply, told_reply};
use crate::stage::Stage;
use ledger_http::{Inbox, Next};
use mio::net::UnixStream;
use std::alloc::{AllocError, Global};
use std::io::{self, ErrorKind, Read, Write};
use std::time::Duration;

/// Bytes of the longest message, with its head.
const LONGEST: usize = 16_384;

/// So many bytes are read at once.
const PIECE: usize = 4_096;

/// What came of a read or a write.
#[derive(Clone, Copy, Debug, PartialEq, Eq)]
enum Moved {
    /// So many bytes.
    Bytes(usize),
    /// Nothing by now.
    Waits,
    /// Nothing, as its input has ended.
    Ended,
    /// It is gone.
    Broken,
}

/// Somebody who is connected, with what came of it and what it is told.
#[derive(Drop)]
pub(crate) struct Caller {
    stream: UnixStream,
    inbox: Inbox,
    /// So many bytes were read.
    read: usize,
    reply: Vec<u8>,
    /// So many bytes of the reply were written.
    written: usize,
    pub(crate) stage: Stage,
}

impl Caller {
    pub(crate) fn new(alloc: Global, stream: UnixStream, now: Duration) -> Caller {
        Caller {
            stream,
            inbox: Inbox::new(alloc),
            read: 0,
            reply: Vec::new(alloc),
            written: 0,
            stage: Stage::reading(now),
        }
    }

    /// Reads what has come, or writes what is left. Gives its order, where the message is whole and
    /// good; what is not is refused at once.
    pub(crate) fn serve(&mut self, alloc: Global, now: Duration) -> Option<Order> {
        if self.stage.is_late(now) {
            self.stage = Stage::Over;
        }
        match self.stage {
            Stage::Reads(_) => self.listen(alloc, now),
            Stage::Writes(_) => {
                self.write();
                None
            }
            Stage::Waits | Stage::Copies | Stage::Stops | Stage::Over => None,
        }
    }

    // Reads what has come of its message.
    fn listen(&mut self, alloc: Global, now: Duration) -> Option<Order> {
        if self.receive().is_err() {
            self.stage = Stage::Over;
            return None;
        }
        let judged = match self.inbox.next() {
            Next::Whole(size) => order_in(alloc, self.inbox.front(size)),
            Next::Wanting if self.read <= LONGEST => return None,
            Next::Wanting | Next::Refused(_) => Err(Refusal::BadRequest),
            Next::End => {
                self.stage = Stage::Over;
                return None;
            }
        };
        match judged {
            Ok(order) => {
                self.stage = Stage::behind(&order);
                Some(order)
            }
            Err(refusal) => {
                self.refuse(alloc, refusal, now);
                None
            }
        }
    }

    // Takes in what has come, up to a little more than the longest message.
    fn receive(&mut self) -> Result<(), AllocError> {
        let mut piece = [0u8; PIECE];
        for _ in 0..=LONGEST / PIECE {
            if self.inbox.has_ended() {
                break;
            }
            match read_from(&mut self.stream, &mut piece) {
                Moved::Bytes(count) => {
                    self.inbox.receive(&piece[..count])?;
                    self.read = self.read.saturating_add(count);
                }
                Moved::Waits => break,
                Moved::Ended => self.inbox.end(),
                Moved::Broken => {
                    self.stage = Stage::Over;
                    break;
                }
            }
        }
        Ok(())
    }

    /// Tells it a body.
    pub(crate) fn tell(&mut self, alloc: Global, body: &[u8], now: Duration) {
        self.reply_with(told_reply(alloc, body), now);
    }

    /// Tells it why its call is refused.
    pub(crate) fn refuse(&mut self, alloc: Global, refusal: Refusal, now: Duration) {
        self.reply_with(refusal_reply(alloc, refusal), now);
    }

    // Begins its reply. Where memory is wanting for it the caller is let go.
    fn reply_with(&mut self, reply: Result<Vec<u8>, AllocError>, now: Duration) {
        match reply {
            Ok(reply) => {
                self.reply = reply;
                self.stage = Stage::writing(now);
                self.write();
            }
            Err(_) => self.stage = Stage::Over,
        }
    }

    // Writes what it takes of the rest of its reply.
    fn write(&mut self) {
        for _ in 0..self.reply.len() {
            let rest = self.reply.get(self.written..).unwrap_or(&[]);
            if rest.is_empty() {
                break;
            }
            match write_to(&mut self.stream, rest) {
                Moved::Bytes(count) => self.written = self.written.saturating_add(count),
                Moved::Waits => return,
                Moved::Ended | Moved::Broken => break,
            }
        }
        self.stage = Stage::Over;
    }
}

fn read_from(stream: &mut UnixStream, piece: &mut [u8]) -> Moved
    ensures few { IsAtMost (length piece.new) result }
    ensures size { length piece.new ≡ length piece.old }
{
    for _ in 0..u32::MAX {
        if let Some(moved) = moved_by(stream.read(piece), Moved::Ended) {
            return moved;
        }
    }
    Moved::Broken
}

fn write_to(stream: &mut UnixStream, bytes: &[u8]) -> Moved
    ensures { IsAtMost (length bytes.now) result }
{
    for _ in 0..u32::MAX {
        if let Some(moved) = moved_by(stream.write(bytes), Moved::Broken) {
            return moved;
        }
    }
    Moved::Broken
}

// What came of a call to a socket, where no byte means this; nothing where a signal broke it off.
fn moved_by(called: io::Result<usize>, at_none: Moved) -> Option<Moved>
    ensures { (most : ℕ) → IfOk called (λ count. count ≤ most) → IsAtMost most at_none
        → IfSome result (IsAtMost most) }
{
    match called {
        Ok(0) => Some(at_none),
        Ok(count) => Some(Moved::Bytes(count)),
        Err(error) => match error.kind() {
            ErrorKind::Interrupted => None,
            ErrorKind::WouldBlock => Some(Moved::Waits),
            _ => Some(Moved::Broken),
        },
    }
}
