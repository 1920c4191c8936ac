//! One client's connection.
ghost use Rattle.std.specs.Prelude.{ℕ, List};
ghost use Rattle.sockets.specs.Counts.{IsReadOf, IsWrittenOf, ReadsInto};

use crate::limits::Limits;
use crate::reading::Reading;
use crate::stages::{Stage, Stages};
use mio::net::TcpStream;
use polling::Written;
use std::io::{ErrorKind, Read, Write};
use std::time::Duration;

/// A client that is connected.
#[derive(Drop)]
pub(crate) struct Peer {
    pub(crate) stream: TcpStream,
    /// Whether it stands in the queue of those who are ready.
    pub(crate) is_queued: bool,
    /// Whether it was told as ready, and has had no turn since.
    pub(crate) is_told: bool,
    /// Whether something may have come that was not read.
    pub(crate) can_read: bool,
    /// Whether its input ends, so that something is left to read whatever was read before.
    pub(crate) is_ending: bool,
    pub(crate) reading: Reading,
    pub(crate) stage: Stage,
    /// Whether nothing more can come of it, so that it need not be lingered for.
    pub(crate) is_over: bool,
    /// Whether it is to go since it is late.
    pub(crate) is_late: bool,
}

impl Peer {
    pub(crate) fn new(stream: TcpStream, stage: Stage) -> Peer {
        Peer {
            stream,
            is_queued: false,
            is_told: false,
            can_read: true,
            is_ending: false,
            reading: Reading::new(),
            stage,
            is_over: false,
            is_late: false,
        }
    }

    /// From now on it is waited for this. Says whether there was memory for it; else nothing more
    /// can come of the client.
    pub(crate) fn change(&mut self, stages: &mut Stages, number: u64, stage: Stage) -> bool {
        if self.stage == stage {
            return true;
        }
        stages.leave(number, self.stage);
        self.stage = stage;
        let is_done = stages.enter(number, stage).is_ok();
        if !is_done {
            self.is_over = true;
        }
        is_done
    }

    /// Whether it has not taken all of a reply.
    pub(crate) fn is_written_to(&self) -> bool {
        !self.is_over && matches!(self.stage, Stage::Reply(_))
    }

    /// Reads what has come, where something may have. A piece that is not filled took all of it,
    /// and what comes later is told of anew, as is an end that comes later.
    pub(crate) fn receive(&mut self, piece: &mut [u8]) -> polling::Read
        ensures { ReadsInto piece.old piece.new result }
    {
        if !self.can_read {
            return polling::Read::Waits;
        }
        let size = piece.len();
        let read = read_from(&mut self.stream, piece);
        self.can_read = match read {
            polling::Read::Gave(count) => count == size || self.is_ending,
            polling::Read::Waits => false,
            polling::Read::Ended | polling::Read::Broken => true,
        };
        read
    }

    /// Something was read of it, or nothing.
    pub(crate) fn has_read(
        &mut self,
        stages: &mut Stages,
        number: u64,
        read: polling::Read,
        limits: &Limits,
        now: Duration,
    ) -> polling::Read
        ensures { (piece : List ℕ) → IsReadOf read piece → IsReadOf result piece }
    {
        let goes_on = match read {
            polling::Read::Gave(count) => {
                self.reading.gave(count);
                self.change(stages, number, self.stage.behind_bytes(limits, now))
            }
            polling::Read::Waits => {
                self.is_late = self.stage.is_over(now);
                !self.is_late
            }
            polling::Read::Ended => {
                self.is_over = true;
                true
            }
            polling::Read::Broken => false,
        };
        if goes_on {
            return read;
        }
        self.is_over = true;
        polling::Read::Broken
    }

    /// Something was written to it of so many bytes, or nothing.
    pub(crate) fn has_written(
        &mut self,
        stages: &mut Stages,
        number: u64,
        written: Written,
        size: usize,
        limits: &Limits,
        now: Duration,
    ) -> Written
        ensures { (bytes : List ℕ) → IsWrittenOf written bytes → IsWrittenOf result bytes }
    {
        let part = self.stage.behind_part(limits, now, size);
        let goes_on = match written {
            Written::Took(count) => {
                if count == size {
                    self.change(stages, number, Stage::idle(limits, now))
                } else {
                    self.change(stages, number, part)
                }
            }
            Written::Waits => {
                self.is_late = part.is_over(now);
                self.change(stages, number, part) && !self.is_late
            }
            Written::Broken => false,
        };
        if goes_on {
            return written;
        }
        self.is_over = true;
        Written::Broken
    }
}

/// Reads what has come, as much as there is room for in a piece that is not empty.
pub(crate) fn read_from(stream: &mut TcpStream, piece: &mut [u8]) -> polling::Read
    ensures { ReadsInto piece.old piece.new result }
{
    // A signal breaks a call off.
    for _ in 0..u32::MAX {
        match stream.read(piece) {
            Ok(0) => return polling::Read::Ended,
            Ok(count) => return polling::Read::Gave(count),
            Err(e) => match e.kind() {
                ErrorKind::Interrupted => {}
                ErrorKind::WouldBlock => return polling::Read::Waits,
                _ => return polling::Read::Broken,
            },
        }
    }
    polling::Read::Broken
}

/// Writes as much of some bytes as is taken. They are not none.
pub(crate) fn write_to(stream: &mut TcpStream, bytes: &[u8]) -> Written
    ensures { IsWrittenOf result bytes.now }
{
    for _ in 0..u32::MAX {
        match stream.write(bytes) {
            Ok(0) => return Written::Broken,
            Ok(count) => return Written::Took(count),
            Err(e) => match e.kind() {
                ErrorKind::Interrupted => {}
                ErrorKind::WouldBlock => return Written::Waits,
                _ => return Written::Broken,
            },
        }
    }
    Written::Broken
}
