//! Laws of a store in use.
ghost use Rattle.chain.specs.Backends.{in_use};
ghost use Rattle.service.specs.Openings.{run_meaning, IsSettled};
ghost use Rattle.store.specs.StoreLaws.{store_meaning};
ghost use Rattle.store.specs.Stores.{IsUsable};

use chain::InUse;
use sqlite_disk::Disk;
use store::Store;

/// It may be called.
pub(crate) fn may_be_called<D: Disk + Drop>(store: &InUse<Store<D>>)
    ensures { IsUsable store.now }
{
    let _backend = &store.backend;
}

/// While it is live an opening finds what is there. It may be called.
pub(crate) fn is_settled<D: Disk + Drop>(store: &InUse<Store<D>>)
    ensures usable { IsUsable store.now }
    ensures settled { IsSettled (run_meaning (in_use store_meaning)) store.now }
{
    store.backend.is_settled();
}
