//! What is left of an open database, and of one that is closed.

ghost use Rattle.sqlite.specs.State.{HasCleanDisk};
ghost use Rattle.sqlite.specs.Held.{state};
ghost use Rattle.sqlite.specs.Files.{file_state};
ghost use Rattle.sqlite_wal.specs.Reads.{AreClean};
ghost use Rattle.openings.specs.Found.{LeavesCommitted, Yields};

use sqlite::{Alter, Connection, FileStore, Files};
use sqlite_disk::Disk;

/// A law: while the database is open, a crash leaves what was committed last, and nothing else.
pub fn is_settled<S: Alter>(_conn: &Connection<S>)
    ensures { LeavesCommitted (state S.Store _conn.now) }
{}

/// Gives the files back, with no reading or writing.
pub fn shut<D: Disk + Drop>(conn: Connection<FileStore<D>>) -> Files<D>
    ensures left { Yields D.Disk result (file_state conn).may_leave }
    ensures honest { AreClean D.Disk result.log result.db → HasCleanDisk (file_state conn) }
{
    conn.into_store().close()
}
