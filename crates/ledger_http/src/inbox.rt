//! What comes from a client, in whatever pieces, and the messages in it.
ghost use Rattle.std.specs.Prelude.{◌≡◌, ◌≤◌, [], false, length, take, drop, OnOk, OnErr, IfOk, IfSome, IfNone, IsTrue};
ghost use Rattle.ledger_http.specs.Limits.{longest_message};
ghost use Rattle.ledger_http.specs.Message.{IsAnnounced};
ghost use Rattle.ledger_http.specs.Progress.{HasLength, IsLooked};
ghost use Rattle.ledger_http.specs.Unread.{nothing_yet, with_more, ended_now, without, IsShort, IsWhole};
ghost use Rattle.ledger_http.specs.Unread.{IsNextUnread};

use crate::Refusal;
use crate::progress::{Progress, look_on};
use std::alloc::{AllocError, Global};
use std::marker::Model;

// An inbox with no bytes in it keeps room for so many.
const ROOM_KEPT: usize = 4096;

/// What stands first in an inbox.
#[derive(Clone, Copy, Debug, PartialEq, Eq)]
pub enum Next {
    /// A message of so many bytes.
    Whole(usize),
    /// No message that is taken. What comes behind it is of no use.
    Refused(Refusal),
    /// A beginning of a message, or no byte: more has to come.
    Wanting,
    /// Nothing: the input has ended.
    End,
}

/// What has come from a client and is not taken. However it is cut into pieces, a message of n
/// bytes in k pieces costs n + k steps.
#[derive(Drop)]
pub struct Inbox {
    // What came since the beginning of what is unread was last moved to the front.
    bytes: Vec<u8>,
    // So many of them are taken.
    taken: usize,
    // What is known of the first message behind them.
    progress: Progress,
    // Whether the input has ended.
    ended: bool,
}

impl Model for Inbox {
    ghost use Rattle.std.specs.Prelude.{◌≤◌, length, drop};
    ghost use Rattle.ledger_http.specs.Unread.{Unread};
    ghost use Rattle.ledger_http.specs.Progress.{IsProgress};

    ghost Value = { Unread };

    ghost view = { λ inbox. record {
      bytes = drop inbox.taken inbox.bytes.items;
      ended = inbox.ended;
    } };

    ghost invariant = { λ inbox. (inbox.taken ≤ length inbox.bytes.items)
        × IsProgress (drop inbox.taken inbox.bytes.items) inbox.progress };
}

// Lets go of what is taken, if that is more than is left.
fn move_up(bytes: &mut Vec<u8>, taken: usize) -> usize
    requires { taken ≤ length bytes.old.items }
    ensures within { result ≤ length bytes.new.items }
    ensures same { drop result bytes.new.items ≡ drop taken bytes.old.items }
{
    let left = bytes.len() - taken;
    if taken <= left {
        return taken;
    }
    bytes.rotate_left(taken);
    bytes.truncate(left);
    0
}

// Lets go of all bytes, and of their room unless it is small.
fn let_go(bytes: &mut Vec<u8>)
    ensures { bytes.new.items ≡ [] }
{
    bytes.clear();
    if bytes.capacity() > ROOM_KEPT {
        bytes.shrink_to_fit();
    }
}

// How long the first message is, if all of it has come.
fn whole_size(bytes: &[u8], progress: Progress) -> Option<usize>
    requires { IsLooked bytes.now progress }
    ensures whole { IfSome result (IsWhole bytes.now) }
    ensures short { IfNone result (IsShort bytes.now) }
{
    let Progress::Body(head, size) = progress else {
        return None;
    };
    if head + size <= bytes.len() {
        Some(head + size)
    } else {
        None
    }
}

// What stands first in bytes that have all been looked at.
fn first_in(bytes: &[u8], progress: Progress, ended: bool) -> Next
    requires { IsLooked bytes.now progress }
    ensures { IsNextUnread (record { bytes = bytes.now; ended = ended }) result }
{
    match whole_size(bytes, progress) {
        Some(size) => Next::Whole(size),
        None if !ended => Next::Wanting,
        None if bytes.is_empty() => Next::End,
        None => Next::Refused(Refusal::Truncated),
    }
}

impl Inbox {
    pub fn new(alloc: Global) -> Inbox
        ensures { result ≡ nothing_yet }
    {
        Inbox {
            bytes: Vec::new(alloc),
            taken: 0,
            progress: Progress::Head(0),
            ended: false,
        }
    }

    /// Whether the input has ended.
    pub fn has_ended(&self) -> bool
        ensures { result ≡ self.now.ended }
    {
        self.ended
    }

    /// Puts a piece behind what has come.
    pub fn receive(&mut self, piece: &[u8]) -> Result<(), AllocError>
        requires { self.old.ended ≡ false }
        ensures ok { OnOk result (self.new ≡ with_more piece.now self.old) }
        ensures err { OnErr result (self.new ≡ self.old) }
    {
        self.taken = move_up(&mut self.bytes, self.taken);
        self.bytes.extend_from_slice(piece)
    }

    /// The input has ended: nothing more comes.
    pub fn end(&mut self)
        ensures { self.new ≡ ended_now self.old }
    {
        self.ended = true;
    }

    /// What stands first. Asked again before more has come, it is the same.
    pub fn next(&mut self) -> Next
        ensures next { IsNextUnread self.old result }
        ensures same { self.new ≡ self.old }
    {
        let unread = &self.bytes[self.taken..];
        let progress = match self.progress {
            Progress::Head(looked) => match look_on(unread, looked) {
                Ok(progress) => progress,
                Err(refusal) => return Next::Refused(refusal),
            },
            Progress::Body(head, size) => Progress::Body(head, size),
        };
        let next = first_in(unread, progress, self.ended);
        self.progress = progress;
        next
    }

    /// Whether a good head was found first, behind which a body of allowed length is due.
    pub fn is_announced(&self) -> bool
        ensures { IsTrue result → IsAnnounced self.now.bytes }
    {
        matches!(self.progress, Progress::Body(_, _))
    }

    /// How long the first message is with its head, where a good head was found and a body of
    /// allowed length is due behind it.
    #[tactic(auto, using(crate::proofs::ProgressLemmas::few_in_body))]
    pub fn announced_length(&self) -> Option<usize>
        ensures length { IfSome result (HasLength self.now.bytes) }
        ensures few { IfSome result (λ length. length ≤ longest_message) }
    {
        match self.progress {
            Progress::Body(head, size) => Some(head + size),
            Progress::Head(_) => None,
        }
    }

    /// Where a body is due, makes room for what is wanting of it, up to so many bytes. Says how
    /// many bytes to receive. It fails only where a body is due.
    pub fn reserve_due(&mut self, most: usize) -> Result<usize, AllocError>
        ensures same { self.new ≡ self.old }
        ensures few { IfOk result (λ count. count ≤ most) }
        ensures due { OnErr result (IsAnnounced self.old.bytes) }
    {
        let Progress::Body(head, size) = self.progress else {
            return Ok(most);
        };
        self.taken = move_up(&mut self.bytes, self.taken);
        let come = self.bytes.len() - self.taken;
        let due = (head + size).saturating_sub(come).min(most);
        match self.bytes.reserve(due) {
            Ok(()) => Ok(due),
            Err(e) => Err(e),
        }
    }

    /// The first bytes.
    pub fn front(&self, size: usize) -> &[u8]
        requires { size ≤ length self.now.bytes }
        ensures { result.now ≡ take size self.now.bytes }
    {
        &self.bytes[self.taken..self.taken + size]
    }

    /// Takes the first bytes.
    pub fn take(&mut self, size: usize)
        requires { size ≤ length self.old.bytes }
        ensures { self.new ≡ without size self.old }
    {
        self.taken += size;
        self.progress = Progress::Head(0);
        if self.taken == self.bytes.len() {
            let_go(&mut self.bytes);
            self.taken = 0;
        }
    }
}
