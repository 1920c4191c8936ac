//! How much may be read of a client.
ghost use Rattle.std.specs.Prelude.{◌≡◌, ◌+◌, ◌^◌, ◌-◌, min};
ghost use Rattle.sockets.specs.Reading.{readable, lacking, is_whole, given_back, read_behind};

use polling::Written;

/// So many bytes are read of anybody: a head and a small body.
const SMALL_MESSAGE: usize = 65_536;

/// What was read of a client since its last whole reply, and the room that it has for a message.
#[derive(Clone, Copy, Debug, PartialEq, Eq)]
pub(crate) struct Reading {
    read: usize,
    room: usize,
}

// Whether all of so many bytes were taken.
fn is_whole(written: Written, bytes: usize) -> bool
    ensures { result ≡ is_whole written bytes }
{
    match written {
        Written::Took(count) => count == bytes,
        Written::Waits | Written::Broken => false,
    }
}

impl Reading {
    /// Nothing was read, and there is no room.
    pub(crate) fn new() -> Reading
        ensures { result ≡ record { read = 0; room = 0 } }
    {
        Reading { read: 0, room: 0 }
    }

    /// How much room it has.
    pub(crate) fn room(self) -> usize
        ensures { result ≡ self.room }
    {
        self.room
    }

    /// How many of the bytes that are wanted may be read now.
    pub(crate) fn may_read(self, wanted: usize) -> usize
        ensures { result ≡ readable self wanted }
    {
        wanted.min(self.room.max(SMALL_MESSAGE).saturating_sub(self.read))
    }

    /// For how many bytes room is lacking, where a message is so long: for all of them, once, if it
    /// is long.
    pub(crate) fn lacks(self, bytes: usize) -> usize
        ensures { result ≡ lacking self bytes }
    {
        if bytes <= SMALL_MESSAGE || self.room > 0 {
            return 0;
        }
        bytes
    }

    /// It has room for so many bytes.
    pub(crate) fn has_room(&mut self, bytes: usize)
        ensures { self.new ≡ record self.old { room = bytes } }
    {
        self.room = bytes;
    }

    /// So many bytes were read.
    pub(crate) fn gave(&mut self, bytes: usize)
        ensures { self.new ≡ record self.old { read = min (self.old.read + bytes) (2 ^ 64 - 1) } }
    {
        self.read = self.read.saturating_add(bytes);
    }

    /// Behind a write of what was left of a reply, so many bytes. Where all of them were taken the
    /// room is given back, and the next message begins. Says how much is given back.
    pub(crate) fn wrote(&mut self, written: Written, bytes: usize) -> usize
        ensures room { result ≡ given_back self.old written bytes }
        ensures now { self.new ≡ read_behind self.old written bytes }
    {
        if !is_whole(written, bytes) {
            return 0;
        }
        let room = self.room;
        *self = Reading::new();
        room
    }
}
