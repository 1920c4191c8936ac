//! The tables of a ledger that was opened: which type they have, in one place.

ghost use Rattle.sqlite.specs.State.{HasCleanDisk};
ghost use Rattle.sqlite_wal.specs.Reads.{AreClean};
ghost use Rattle.openings.specs.Found.{LeavesCommitted, Yields};
ghost use Rattle.openings.specs.OpenTables.{open_state};

use crate::closing;
use sqlite::{Connection, FileStore, Files};
use sqlite_disk::Disk;

/// The tables of a ledger in two files that was opened or made.
pub type OpenTables<D> = Connection<FileStore<D>>;

/// A law: while they are open, a crash leaves what was committed last, and nothing else.
pub fn is_settled<D: Disk + Drop>(tables: &OpenTables<D>)
    ensures { LeavesCommitted (open_state tables.now) }
{
    closing::is_settled(tables);
}

/// Gives the files back, with no reading or writing.
pub fn give_back<D: Disk + Drop>(tables: OpenTables<D>) -> Files<D>
    ensures left { Yields D.Disk result (open_state tables).may_leave }
    ensures honest { AreClean D.Disk result.log result.db → HasCleanDisk (open_state tables) }
{
    closing::shut(tables)
}
