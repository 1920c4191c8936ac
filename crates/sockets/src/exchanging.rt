//! Reading of clients, and writing to them.
ghost use Rattle.std.specs.Prelude.{◌≡◌, ◌≤◌, IfSome};
ghost use Rattle.std.specs.BTreeMap.{get};
ghost use Rattle.std.specs.Ordering.{nat_cmp};
ghost use Rattle.sockets.specs.Turn.{room_of};
ghost use Rattle.sockets.specs.Counts.{IsWrittenOf, ReadsInto};

use crate::guests::Guests;
use crate::peer::write_to;
use crate::stages::Stage;
use polling::{Read, Written};
use std::time::Duration;

impl Guests {
    // How much may be read of a client now: nothing while it waits for room. With `None` it is
    // gone.
    fn room_for(&self, number: u64, wanted: usize) -> Option<usize>
        ensures few { IfSome result (λ room. room ≤ wanted) }
        ensures room { result ≡ room_of (get nat_cmp self.now.peers number) wanted }
    {
        let Some(peer) = self.peers.get(&number) else {
            return None;
        };
        if peer.is_over {
            return None;
        }
        match peer.stage {
            Stage::Room => Some(0),
            _ => Some(peer.reading.may_read(wanted)),
        }
    }

    /// Reads a piece of what a client has sent.
    pub(crate) fn read(&mut self, number: u64, piece: &mut [u8], now: Duration) -> Read
        ensures { ReadsInto piece.old piece.new result }
    {
        let room = match self.room_for(number, piece.len()) {
            Some(0) => return Read::Waits,
            Some(room) => room,
            None => return Read::Broken,
        };
        match self.peers.get_mut(&number) {
            Some(peer) => {
                peer.is_told = false;
                let read = peer.receive(&mut piece[..room]);
                peer.has_read(&mut self.stages, number, read, &self.limits, now)
            }
            None => Read::Broken,
        }
    }

    /// Writes what a client takes of a reply, or of what is left of it.
    pub(crate) fn write(&mut self, number: u64, bytes: &[u8], now: Duration) -> Written
        ensures { IsWrittenOf result bytes.now }
    {
        if bytes.is_empty() {
            return Written::Took(0);
        }
        let Some(peer) = self.peers.get_mut(&number) else {
            return Written::Broken;
        };
        peer.is_told = false;
        let written = write_to(&mut peer.stream, bytes);
        let size = bytes.len();
        let room = peer.reading.wrote(written, size);
        let result = peer.has_written(&mut self.stages, number, written, size, &self.limits, now);
        if room > 0 {
            self.room.give_back(room);
            self.admit(now);
        }
        result
    }
}
