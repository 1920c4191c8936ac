//! Which tenants have holds that are due.

ghost use Rattle.std.specs.Prelude.{◌≡◌, ◌≤◌, None, Some, IfOk, IfSome};
ghost use Rattle.stored_ledgers.specs.Directory.{first_digest, with_number};
ghost use Rattle.stored_ledgers.specs.Overdue.{FindsOverdue, piece_of};
ghost use Rattle.store.specs.Overdue.{FindsNoneListed};
ghost use Rattle.store.specs.Stores.{IsUsable, IsLive, OfDatabase, ReadsStore};

use crate::Store;
use crate::place::Place;
use records::Unavailable;
use sqlite_disk::Disk;
use stored_ledgers::overdue::{Overdue, Search, find_overdue};
use stored_ledgers::probe::is_disk_fault;

impl<D: Disk + Drop> Store<D> {
    /// Looks at the tenants that a search comes to next, 256 at most, for holds that are due by a
    /// moment, in nanoseconds, and tells the first tenant that has some: more than 200, or one that
    /// has been due for a second. It is told by when 200 of them are due, or all if they are fewer.
    /// What the tenant's last batch has released may still be among them.
    pub fn overdue(
        &mut self,
        search: &mut Search,
        moment: u64,
    ) -> Result<Option<Overdue>, Unavailable>
        requires { IsUsable self.old }
        ensures by { IfOk result (λ found. IfSome found (λ overdue. overdue.until ≤ moment)) }
        ensures found { IfOk result (λ found. IfSome found (λ overdue.
            FindsOverdue self.old.due moment search.old search.new overdue.number
            (piece_of overdue))) }
        ensures listed { IsLive self.new → IfOk result (λ found. IfSome found (λ overdue.
            OfDatabase (λ db. Some overdue.digest
            ≡ first_digest (with_number overdue.number db.trees)) self.old)) }
        ensures none { IfOk result (λ found. found ≡ None
            → FindsNoneListed moment search.old search.new self.old self.new) }
        ensures reads { ReadsStore self.old self.new result }
    {
        if !self.ready {
            return Err(Unavailable::Disk);
        }
        let Place::Open(tables) = &mut self.place else {
            return Err(Unavailable::Disk);
        };
        let found = find_overdue(tables, &self.due, search, moment);
        self.ready = !is_disk_fault(&found);
        found
    }
}
