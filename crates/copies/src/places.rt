//! A file as a copy sees it.
ghost use Rattle.std.specs.Prelude.{◌≤◌, ℕ, List, Option, None, length, IfOk, OnOk};
ghost use Rattle.copies.specs.Places.{HasRead, WritesPart, Cuts};

use crate::fault::CopyFault;
use std::fs::File;
use std::io::ErrorKind;
use std::os::unix::fs::FileExt;

/// A file that is read and written at places.
pub(crate) trait Places {
    /// Its bytes, where they can be told: those of a file of this machine cannot.
    ghost bytes: { Self → Option (List ℕ) };

    /// Reads as much as there is from a place on and has room. Says how much that is.
    fn read_from(&self, room: &mut [u8], at: u64) -> Result<usize, CopyFault>
        ensures { IfOk result (λ count. HasRead (bytes self.now) at room.new count) };

    /// Writes bytes at a place.
    fn write_to(&mut self, part: &[u8], at: u64) -> Result<(), CopyFault>
        ensures { OnOk result (WritesPart at part.now (bytes self.old) (bytes self.new)) };

    /// Lets go of what is behind so many bytes.
    fn cut(&mut self, size: u64) -> Result<(), CopyFault>
        ensures { OnOk result (Cuts size (bytes self.old) (bytes self.new)) };
}

// Reads until there is no more, or no room.
fn fill(file: &File, room: &mut [u8], at: u64) -> Result<usize, CopyFault>
    ensures { IfOk result (λ count. count ≤ length room.new) }
{
    let mut count = 0;
    for _ in 0..u32::MAX {
        if count == room.len() {
            return Ok(count);
        }
        match file.read_at(&mut room[count..], at.saturating_add(count as u64)) {
            Ok(0) => return Ok(count),
            Ok(more) => count += more,
            Err(error) if error.kind() == ErrorKind::Interrupted => {}
            Err(error) => return Err(CopyFault::from(error)),
        }
    }
    Err(CopyFault::Failed)
}

impl Places for File {
    ghost bytes = { λ _. None };

    fn read_from(&self, room: &mut [u8], at: u64) -> Result<usize, CopyFault> {
        fill(self, room, at)
    }

    fn write_to(&mut self, part: &[u8], at: u64) -> Result<(), CopyFault> {
        Ok(self.write_all_at(part, at)?)
    }

    fn cut(&mut self, size: u64) -> Result<(), CopyFault> {
        Ok(self.set_len(size)?)
    }
}
