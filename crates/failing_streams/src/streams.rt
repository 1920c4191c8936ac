//! A reader that gives pieces, and a writer that is narrow, and both may fail.

use std::io::{self, ErrorKind, Read, Write};

/// Gives at most `piece` bytes a call, and fails behind the last one if it is to.
#[derive(Drop)]
pub struct Pieces<'a> {
    pub bytes: &'a [u8],
    pub piece: usize,
    pub fails: bool,
}

impl Read for Pieces<'_> {
    fn read(&mut self, buf: &mut [u8]) -> io::Result<usize> {
        if self.bytes.is_empty() && self.fails {
            return Err(ErrorKind::ConnectionReset.into());
        }
        let count = buf.len().min(self.piece).min(self.bytes.len());
        let (front, rest) = self.bytes.split_at(count);
        buf[..count].copy_from_slice(front);
        self.bytes = rest;
        Ok(count)
    }
}

/// Takes at most `piece` bytes a call, and is stuck or fails once it has taken `room` bytes.
#[derive(Drop)]
pub struct Narrow {
    pub taken: Vec<u8>,
    pub piece: usize,
    pub room: usize,
    pub fails: bool,
}

impl Write for Narrow {
    fn write(&mut self, buf: &[u8]) -> io::Result<usize> {
        let count = buf.len().min(self.piece).min(self.room);
        if count == 0 && self.fails {
            return Err(ErrorKind::BrokenPipe.into());
        }
        self.taken.extend_from_slice(&buf[..count])?;
        self.room -= count;
        Ok(count)
    }

    fn flush(&mut self) -> io::Result<()> {
        Ok(())
    }
}
