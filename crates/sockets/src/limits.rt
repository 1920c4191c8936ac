//! What those who are connected may do.
ghost use Rattle.std.specs.Prelude.{◌≡◌};
ghost use Rattle.std.specs.Duration.{as_nanos};
ghost use Rattle.sockets.specs.Limits.{AreUsual, reply_nanos};

use std::time::Duration;

/// For so many bytes of a reply there is one second more to take it.
const BYTES_A_SECOND: usize = 65_536;

/// What those who are connected are allowed.
#[derive(Clone, Copy, Debug, PartialEq, Eq)]
pub struct Limits {
    /// The most clients at once.
    pub clients: usize,
    /// How many bytes all messages of more than 64 kB may have together that are read at once. Of
    /// one that is longer only so many are read, and its client is let go in time.
    pub room: usize,
    /// How long a client may be silent between messages.
    pub idle: Duration,
    /// How long a message may take from its first byte, or from the room that it waited for.
    pub message: Duration,
    /// How long a reply may take from where it first waited, beside one second for each 64 kB.
    pub reply: Duration,
}

impl Limits {
    /// A thousand clients, 256 MB for long messages, 75 seconds of silence, ten for a message and
    /// ten for a reply.
    pub fn usual() -> Limits
        ensures { AreUsual result }
    {
        Limits {
            clients: 1_000,
            room: 256 * 1024 * 1024,
            idle: Duration::from_secs(75),
            message: Duration::from_secs(10),
            reply: Duration::from_secs(10),
        }
    }
}

/// How long a reply of so many bytes may take from where it first waited.
pub(crate) fn reply_time(limits: &Limits, bytes: usize) -> Duration
    ensures { as_nanos result ≡ reply_nanos limits.now bytes }
{
    let more = Duration::from_secs((bytes / BYTES_A_SECOND) as u64);
    limits.reply.saturating_add(more)
}
