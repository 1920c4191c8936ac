//! Two files that one meter measures.

ghost use Rattle.std.specs.Prelude.{◌≡◌};

use crate::{Meter, Metered};
use sqlite_disk::{Disk, Files};
use std::time::Clock;

/// A database file and its log, whose calls one meter counts together.
pub fn measured<'a, D: Disk, K: Clock>(
    files: Files<D>,
    clock: &'a K,
    meter: &'a Meter,
) -> Files<Metered<'a, D, K>>
    ensures log { result.log.inner ≡ files.log }
    ensures db { result.db.inner ≡ files.db }
{
    let Files { log, db } = files;
    Files {
        log: Metered::new(log, clock, meter),
        db: Metered::new(db, clock, meter),
    }
}
