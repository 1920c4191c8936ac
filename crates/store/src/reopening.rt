//! How a store is opened again.

ghost use Rattle.std.specs.Prelude.{◌≡◌, false};
ghost use Rattle.store.specs.Reopened.{OpensAgain};

use crate::Store;
use crate::place::Place;
use core::mem::replace_with;
use openings::auditing::Audit;
use openings::ledgers::open_ledger;
use openings::opening::OpenFault;
use openings::refused::Refused;
use openings::versions::CURRENT_VERSION;
use records::Unavailable;
use sqlite::{Files, Options};
use sqlite_disk::Disk;
use std::alloc::Global;
use std::collections::BTreeMap;

impl<D: Disk + Drop> Store<D> {
    /// Opens the store again, on what its files hold, as after a crash. Where it is refused, calls
    /// are answered no more until it is opened again, and it is told whether a later opening finds
    /// what this one might have.
    pub fn reopen<A: Audit>(&mut self, audit: &A) -> Result<(), Refused>
        ensures { OpensAgain CURRENT_VERSION self.old self.new result }
    {
        replace_with(self, audit, reopened)
    }
}

/// The store opened again, or with its files in hand.
fn reopened<D: Disk + Drop, A: Audit>(store: Store<D>, audit: &A) -> (Store<D>, Result<(), Refused>)
    ensures { OpensAgain CURRENT_VERSION store result.0 result.1 }
{
    let alloc = store.alloc;
    let options = store.options;
    let files = store.close();
    if !(files.log.may_be_used() && files.db.may_be_used()) {
        let fault = OpenFault::Unavailable(Unavailable::Disk);
        let stands = true;
        return (
            unopened(alloc, options, files),
            Err(Refused { fault, stands }),
        );
    }
    match open_ledger(alloc, files, options, audit) {
        Ok((tables, due)) => (Store::over(alloc, tables, due, options), Ok(())),
        Err((refused, left)) => (unopened(alloc, options, left), Err(refused)),
    }
}

/// A store that is not opened, with its files in hand.
fn unopened<D: Disk>(alloc: Global, options: Options, files: Files<D>) -> Store<D>
    ensures place { result.place ≡ Place.Shut files }
    ensures ready { result.ready ≡ false }
{
    Store {
        place: Place::Shut(files),
        ready: false,
        due: BTreeMap::new(alloc),
        options,
        alloc,
    }
}
