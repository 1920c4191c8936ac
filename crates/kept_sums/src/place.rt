//! A file as FILE-sums is written to it.

ghost use Rattle.std.specs.Prelude.{◌≡◌, ℕ, List, Option, None, OnOk};
ghost use Rattle.kept_sums.specs.Places.{KeepsBefore, WritesPart};

use std::fs::File;
use std::io;
use std::os::unix::fs::FileExt;

/// A file that is written at places.
pub trait Place {
    /// Its bytes, where they are known. Those of a file of this machine are not.
    ghost bytes: { Self → Option (List ℕ) };

    /// Writes bytes at a place. A call that fails may have written any of them.
    fn write_part(&mut self, at: u64, part: &[u8]) -> io::Result<()>
        ensures written { OnOk result (WritesPart at part.now (bytes self.old) (bytes self.new)) }
        ensures before { KeepsBefore at (bytes self.old) (bytes self.new) };

    /// Syncs what was written.
    fn sync(&mut self) -> io::Result<()>
        ensures { bytes self.new ≡ bytes self.old };
}

impl Place for File {
    ghost bytes = { λ _. None };

    fn write_part(&mut self, at: u64, part: &[u8]) -> io::Result<()> {
        self.write_all_at(part, at)
    }

    fn sync(&mut self) -> io::Result<()> {
        self.sync_data()
    }
}
