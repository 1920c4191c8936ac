//! What each caller is waited for.
ghost use Rattle.std.specs.Prelude.{◌≡◌};
ghost use Rattle.control.specs.Stages.{IsBehindOrder, IsReadingUntil, IsWriting, has_had_time, is_busy};

use crate::Order;
use std::time::Duration;

/// So many seconds a caller has for its message, and again to take its reply.
const PATIENCE: u64 = 10;

/// What a caller is waited for, and until when.
#[derive(Clone, Copy, Debug, PartialEq, Eq)]
pub(crate) enum Stage {
    /// For its message.
    Reads(Duration),
    /// For nothing: its order is being done.
    Waits,
    /// For nothing: it asked for a copy, and is answered once that is made.
    Copies,
    /// For nothing: it asked for the end, and is answered then.
    Stops,
    /// For it to take its reply.
    Writes(Duration),
    /// It is let go.
    Over,
}

impl Stage {
    /// Of one that has come.
    pub(crate) fn reading(now: Duration) -> Stage
        ensures { IsReadingUntil now result }
    {
        Stage::Reads(now.saturating_add(Duration::from_secs(PATIENCE)))
    }

    /// Of one that has a reply.
    pub(crate) fn writing(now: Duration) -> Stage
        ensures { IsWriting now result }
    {
        Stage::Writes(now.saturating_add(Duration::from_secs(PATIENCE)))
    }

    /// Behind its order.
    pub(crate) fn behind(order: &Order) -> Stage
        ensures { IsBehindOrder order.now result }
    {
        match order {
            Order::Copy { .. } => Stage::Copies,
            Order::Stop => Stage::Stops,
            _ => Stage::Waits,
        }
    }

    /// Whether something is to be read of it, or written to it.
    pub(crate) fn is_busy(self) -> bool
        ensures { result ≡ is_busy self }
    {
        matches!(self, Stage::Reads(_) | Stage::Writes(_))
    }

    /// Whether it has had its time.
    pub(crate) fn is_late(self, now: Duration) -> bool
        ensures { result ≡ has_had_time self now }
    {
        match self {
            Stage::Reads(until) | Stage::Writes(until) => until.saturating_sub(now).is_zero(),
            Stage::Waits | Stage::Copies | Stage::Stops | Stage::Over => false,
        }
    }
}
