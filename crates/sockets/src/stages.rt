//! What each client is waited for.
ghost use Rattle.std.specs.Prelude.{◌≡◌, nat_le};
ghost use Rattle.std.specs.Duration.{as_nanos};
ghost use Rattle.sockets.specs.Stages.{has_had_time, behind, IsBehindBytes, IsBehindPart, IsIdle, IsMessage};

use crate::limits::{Limits, reply_time};
use crate::line::Line;
use std::alloc::{AllocError, Global};
use std::time::Duration;

/// What a client is waited for, and until when.
#[derive(Clone, Copy, Debug, PartialEq, Eq)]
pub(crate) enum Stage {
    /// For its next message.
    Idle(Duration),
    /// For the rest of a message.
    Message(Duration),
    /// For nothing: it waits for room itself.
    Room,
    /// For it to take a reply.
    Reply(Duration),
}

/// Whether a moment has come.
pub(crate) fn has_come(moment: Duration, now: Duration) -> bool
    ensures { result ≡ nat_le (as_nanos moment) (as_nanos now) }
{
    moment.saturating_sub(now).is_zero()
}

impl Stage {
    /// Whether a client has had its time.
    pub(crate) fn is_over(self, now: Duration) -> bool
        ensures { result ≡ has_had_time self now }
    {
        match self {
            Stage::Idle(until) | Stage::Message(until) | Stage::Reply(until) => {
                has_come(until, now)
            }
            Stage::Room => false,
        }
    }

    /// Behind a whole reply, and for a new client.
    pub(crate) fn idle(limits: &Limits, now: Duration) -> Stage
        ensures { IsIdle (behind now (as_nanos limits.now.idle)) result }
    {
        Stage::Idle(now.saturating_add(limits.idle))
    }

    /// For somebody who waited for room and has it.
    pub(crate) fn with_room(limits: &Limits, now: Duration) -> Stage
        ensures { IsMessage (behind now (as_nanos limits.now.message)) result }
    {
        Stage::Message(now.saturating_add(limits.message))
    }

    /// Behind bytes that were read.
    pub(crate) fn behind_bytes(self, limits: &Limits, now: Duration) -> Stage
        ensures { IsBehindBytes limits.now now self result }
    {
        match self {
            Stage::Idle(_) => Stage::Message(now.saturating_add(limits.message)),
            Stage::Reply(_) | Stage::Message(_) | Stage::Room => self,
        }
    }

    /// Behind a write of a reply of so many bytes that took less than all.
    pub(crate) fn behind_part(self, limits: &Limits, now: Duration, size: usize) -> Stage
        ensures { IsBehindPart limits.now now size self result }
    {
        match self {
            Stage::Idle(_) | Stage::Message(_) | Stage::Room => {
                Stage::Reply(now.saturating_add(reply_time(limits, size)))
            }
            Stage::Reply(_) => self,
        }
    }
}

/// All clients but those who wait for room, by what they are waited for.
#[derive(Drop)]
pub(crate) struct Stages {
    /// Those between messages, who has been silent for longest first.
    pub(crate) idle: Line,
    /// Those in the middle of a message or of a reply.
    pub(crate) busy: Line,
}

impl Stages {
    pub(crate) fn new(alloc: Global) -> Stages {
        Stages {
            idle: Line::new(alloc),
            busy: Line::new(alloc),
        }
    }

    pub(crate) fn enter(&mut self, number: u64, stage: Stage) -> Result<(), AllocError> {
        match stage {
            Stage::Idle(until) => self.idle.add(until, number),
            Stage::Message(until) | Stage::Reply(until) => self.busy.add(until, number),
            Stage::Room => Ok(()),
        }
    }

    pub(crate) fn leave(&mut self, number: u64, stage: Stage) {
        match stage {
            Stage::Idle(until) => self.idle.remove(until, number),
            Stage::Message(until) | Stage::Reply(until) => self.busy.remove(until, number),
            Stage::Room => {}
        }
    }

    /// The first moment at which somebody has had its time.
    pub(crate) fn next_due(&self) -> Option<Duration> {
        match (self.idle.first(), self.busy.first()) {
            (Some((idle, _)), Some((busy, _))) => Some(idle.min(busy)),
            (Some((idle, _)), None) => Some(idle),
            (None, Some((busy, _))) => Some(busy),
            (None, None) => None,
        }
    }
}
