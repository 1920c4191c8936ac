//! Tenants that have more due than is released at once.
ghost use Rattle.std.specs.Prelude.{◌≡◌};
ghost use Rattle.std.specs.List.{list_any};
ghost use Rattle.commands.specs.Behind.{EndsSearch, IsEmpty, Notes, has_digest, is_waiting};

use std::alloc::Global;
use std::mem;
use store::Overdue;

/// Such a tenant.
#[derive(Clone, Copy)]
struct Tenant {
    number: i64,
    /// The digest of its key.
    digest: [u8; 32],
}

/// Whether one of some tenants has this digest.
fn is_among(tenants: &[Tenant], digest: &[u8; 32]) -> bool
    ensures { result ≡ list_any (has_digest digest.now) tenants.now }
{
    tenants.iter().any(|tenant| tenant.digest == *digest)
}

/// Those that were found when all were looked at last, and those that have been found since.
#[derive(Drop)]
pub(crate) struct Behind {
    alloc: Global,
    before: Vec<Tenant>,
    since: Vec<Tenant>,
}

impl Behind {
    pub(crate) fn new(alloc: Global) -> Behind
        ensures { IsEmpty result }
    {
        Behind {
            alloc,
            before: Vec::new(alloc),
            since: Vec::new(alloc),
        }
    }

    pub(crate) fn is_empty(&self) -> bool {
        self.before.is_empty() && self.since.is_empty()
    }

    /// Whether the tenant with a digest is among them.
    pub(crate) fn has(&self, digest: &[u8; 32]) -> bool
        ensures { result ≡ is_waiting digest.now self.now }
    {
        is_among(&self.before, digest) || is_among(&self.since, digest)
    }

    /// A tenant was found. Where memory is wanting for it, nobody waits for it.
    pub(crate) fn found(&mut self, overdue: &Overdue)
        ensures { Notes overdue.now self.old self.new }
    {
        let number = overdue.number;
        self.before.retain(|tenant| tenant.number != number);
        if overdue.has_more {
            let digest = overdue.digest;
            let _ = self.since.push(Tenant { number, digest });
        }
    }

    /// All tenants were looked at.
    pub(crate) fn end_search(&mut self)
        ensures { EndsSearch self.old self.new }
    {
        self.before = mem::replace(&mut self.since, Vec::new(self.alloc));
    }

    /// Nothing is known of any tenant.
    pub(crate) fn clear(&mut self)
        ensures { IsEmpty self.new }
    {
        self.before.clear();
        self.since.clear();
    }
}
