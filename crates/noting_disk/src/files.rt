//! A log and its database file.

ghost use Rattle.std.specs.Prelude.{◌≡◌};

use crate::{LogNotes, Noting};
use sqlite_disk::{Disk, Files};

/// A database file and its log, of which it is noted which log is in use.
pub fn noted_files<'a, D: Disk, N: LogNotes>(
    files: Files<D>,
    notes: &'a N,
) -> Files<Noting<'a, D, N>>
    ensures log { result.log.inner ≡ files.log }
    ensures db { result.db.inner ≡ files.db }
{
    let Files { log, db } = files;
    Files {
        log: Noting::log(log, notes),
        db: Noting::file(db, notes),
    }
}
