//! Those who are connected, and what they do.
ghost use Rattle.std.specs.Prelude.{◌≡◌, ◌≤◌, length};
ghost use Rattle.ledger_http.specs.Limits.{longest_message};
ghost use Rattle.polling.specs.Peers.{Doing, Asked, Closed, Handed, Said, Stirred};
ghost use Rattle.polling.specs.Peers.{HasReadFrom, HasWritten};

use crate::Batch;

/// What waiting told.
#[derive(Clone, Copy, Debug, PartialEq, Eq)]
pub enum Told {
    /// A new client is connected, and has the number that was handed in.
    Joined,
    /// A client may have sent something, or may take something, or asked for another turn.
    Ready(u64),
    /// A client has had its time, or its connection was reset.
    Late(u64),
    /// Nothing more for now.
    Nothing,
}

/// What reading from a client gave.
#[derive(Clone, Copy, Debug, PartialEq, Eq)]
pub enum Read {
    /// So many bytes.
    Gave(usize),
    /// The end of its input.
    Ended,
    /// Nothing for now.
    Waits,
    /// The connection is broken.
    Broken,
}

/// What writing to a client gave.
#[derive(Clone, Copy, Debug, PartialEq, Eq)]
pub enum Written {
    /// So many bytes were taken.
    Took(usize),
    /// None for now.
    Waits,
    /// The connection is broken.
    Broken,
}

/// Those who are connected, each by a number that is never used again.
pub trait Peers {
    // What each doing makes of them.
    ghost does: { Self → Doing → Self → Type 0 };

    /// The next thing that has happened. A new client gets the number `fresh`.
    fn told(&mut self, fresh: u64) -> Told
        ensures { does self.old (Said fresh result) self.new };

    /// The same while messages wait for their turns: this returns at once.
    fn told_at_once(&mut self, fresh: u64) -> Told
        ensures { does self.old (Said fresh result) self.new }
    {
        self.told(fresh)
    }

    /// Whether something more has happened that `told` tells without waiting.
    fn has_more(&self) -> bool;

    /// So many messages were answered in one round.
    fn shared(&self, _messages: u64) {}

    /// Hands over the reply to a client's message once the ledgers keep what it tells, and before
    /// any of it is written. So its clock can be marked first. If the reply is a statement, this is
    /// its first part. `batch` says which batch the message is, if it is one.
    fn answered(&mut self, client: u64, batch: Option<Batch>, reply: &[u8])
        ensures { does self.old (Handed client reply.now) self.new };

    /// A client wants to be read, whose next message has so many bytes, head and body together; 0
    /// where its head has not come. Told before each reading, and what is told later holds.
    fn wants(&mut self, client: u64, bytes: u64)
        requires { bytes ≤ longest_message }
        ensures { does self.old Stirred self.new };

    /// Reads from a client.
    fn read(&mut self, client: u64, piece: &mut [u8]) -> Read
        ensures read { HasReadFrom does client self.old piece.new self.new result }
        ensures size { length piece.new ≡ length piece.old };

    /// Writes to a client.
    fn write(&mut self, client: u64, bytes: &[u8]) -> Written
        ensures { HasWritten does client bytes.now self.old self.new result };

    /// A client has more to do: it is told as ready again, behind those that are.
    fn again(&mut self, client: u64)
        ensures { does self.old (Asked client) self.new };

    /// Lets a client go.
    fn close(&mut self, client: u64)
        ensures { does self.old (Closed client) self.new };
}
