//! Disks in memory tell no lie.

ghost use Rattle.store.specs.Stores.{IsHonest};

use crate::Store;
use sqlite_disk::Memory;

impl Store<Memory> {
    /// A law: a disk in memory has always returned what was written. So all that is promised of an
    /// honest disk holds of each store in memory.
    pub fn memory_is_honest(&self)
        ensures { IsHonest self.now }
    {}
}
