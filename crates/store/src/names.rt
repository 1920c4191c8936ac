//! The names of a store's tenants.

ghost use Rattle.store.specs.Names.{AreNamed, names_of};
ghost use Rattle.store.specs.Stores.{IsLive, IsUsable, tenants_of};

use crate::Store;
use sqlite_disk::Disk;

impl<D: Disk + Drop> Store<D> {
    /// A law: while the store is open, each name goes together with the digest of a tenant, and
    /// each tenant's digest with one name.
    pub fn are_named(&self)
        requires { IsUsable self.now }
        ensures { IsLive self.now → AreNamed (names_of self.now) (tenants_of self.now) }
    {}
}
