//! What notes which log is in use.

ghost use Rattle.std.specs.Prelude.{List, ℕ};
ghost use Rattle.noting_disk.specs.Heads.{IsLogOf};

use sqlite_disk::Disk;

/// Notes which log is in use.
pub trait LogNotes {
    /// Notes the salt of a log that is in use from now on. Whatever a crash leaves of the log by
    /// now has this salt.
    fn note_log<D: Disk>(&self, log: &D, salt: &[u8; 8])
        requires { (left : List ℕ) → D.Disk.may_leave log.now left → IsLogOf salt.now left };
}
