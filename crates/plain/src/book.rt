ghost use Rattle.std.specs.Prelude.{◌≡◌, ◌≢◌, [], is_some, IfOk, IfErr, IsNone, OnOk, OnErr};
ghost use Rattle.std.specs.List.{position};
ghost use Rattle.std.specs.Option.{option_copied_mut};
ghost use Rattle.std.specs.Borrow.{sem};
ghost use Rattle.records.specs.Valid.{IsValid};
ghost use Rattle.chain.specs.Ledgers.{AreValid, KeepsAll, IsRun};
ghost use Rattle.plain.specs.BookLedgers.{machines_in};
ghost use Rattle.plain.specs.Book.{has_digest, state_with, machine_with, ChangesOne, IsCopy, IsRekeyed};
ghost use Rattle.plain.specs.Lending.{LendsTables, LendsTablesOf};

use crate::PlainTables;
use chain::{BatchFault, Work};
use records::Unavailable;
use std::alloc::{AllocError, Global};
use std::marker::Model;

#[derive(Drop)]
struct Tenant {
    digest: [u8; 32],
    tables: PlainTables,
}

/// The tables of several tenants, each known by the 32 bytes of its digest.
#[derive(Drop)]
pub struct Book {
    tenants: Vec<Tenant>,
}

impl Model for Book {
    ghost use Rattle.std.specs.Prelude.{List};
    ghost use Rattle.plain.specs.declared.book.Tenant.{Tenant};

    ghost Value = { List Tenant };

    ghost view = { λ b. b.tenants.items };
}

impl Tenant {
    fn tables(&mut self) -> &mut PlainTables
        ensures* writes_back { sem 𝓛 (LendsTables self.entry result) }
        ensures value { result.now ≡ self.old.tables }
    {
        &mut self.tables
    }
}

// A copy has the machine, at the beginning of a batch.
impl Clone for Tenant {
    ghost is_clone = { IsCopy };

    fn clone(&self) -> Result<Tenant, AllocError> {
        Ok(Tenant {
            digest: self.digest,
            tables: self.tables.copy()?,
        })
    }
}

impl Book {
    /// A book without tenants.
    pub fn new(alloc: Global) -> Book
        ensures empty { result ≡ [] }
        ensures usable { AreValid (machines_in result) }
    {
        Book {
            tenants: Vec::new(alloc),
        }
    }

    /// Keeps a tenant's tables under its digest.
    pub fn add(&mut self, digest: [u8; 32], tables: PlainTables) -> Result<(), Unavailable>
        requires { IsNone (state_with digest self.old) }
        ensures ok { OnOk result (ChangesOne digest tables self.old self.new) }
        ensures err { OnErr result (self.new ≡ self.old) }
        ensures memory { IfErr result (λ e. e ≡ Unavailable.Memory) }
        ensures usable { IsValid tables.now → AreValid (machines_in self.old)
            → AreValid (machines_in self.new) }
    {
        self.tenants.push(Tenant { digest, tables })?;
        Ok(())
    }

    /// Whether a tenant has this digest.
    pub fn holds(&self, digest: &[u8; 32]) -> bool
        ensures { result ≡ is_some (machine_with digest.now self.now) }
    {
        place_of(&self.tenants, digest).is_some()
    }

    /// Gives whoever is known by one digest another one, by which nobody else is known. Where
    /// nobody is known by the first, nothing changes.
    pub fn rekey(&mut self, was: &[u8; 32], digest: &[u8; 32])
        requires { was.now ≢ digest.now → IsNone (state_with digest.now self.old) }
        ensures rekeyed { IsRekeyed was.now digest.now self.old self.new }
        ensures usable { AreValid (machines_in self.old) → AreValid (machines_in self.new) }
    {
        for tenant in self.tenants.iter_mut() {
            if tenant.digest == *was {
                tenant.digest = *digest;
            }
        }
    }

    /// The tables of the tenant with this digest, to read and change.
    pub fn tables(&mut self, digest: &[u8; 32]) -> Option<&mut PlainTables>
        ensures* writes_back { sem 𝓛 (LendsTablesOf digest.now self.entry result) }
        ensures value { option_copied_mut result ≡ state_with digest.now self.old }
    {
        match place_of(&self.tenants, digest) {
            Some(place) => Some(self.tenants[place].tables()),
            None => None,
        }
    }

    /// Runs a batch of work on one tenant's tables, and keeps all of it or nothing.
    pub fn batch<W: Work + Drop>(
        &mut self,
        digest: &[u8; 32],
        work: W,
    ) -> Result<W::Output, BatchFault>
        ensures run { IsRun (W.gives work) digest.now (machines_in self.old) (machines_in self.new)
            result }
        ensures usable { AreValid (machines_in self.old) → AreValid (machines_in self.new) }
    {
        let Some(tables) = self.tables(digest) else {
            return Err(BatchFault::UnknownKey);
        };
        tables.begin();
        match work.run(tables) {
            Ok(output) => Ok(output),
            Err(why) => {
                tables.abandon();
                Err(BatchFault::Unavailable(why))
            }
        }
    }

    /// A copy, which has the same machines.
    pub(crate) fn copy(&self) -> Result<Book, AllocError>
        ensures { IfOk result (λ copy. KeepsAll (machines_in self.now) (machines_in copy)) }
    {
        Ok(Book {
            tenants: self.tenants.clone()?,
        })
    }
}

fn place_of(tenants: &[Tenant], digest: &[u8; 32]) -> Option<usize>
    ensures { result ≡ position (has_digest digest.now) tenants.now }
{
    tenants.iter().position(|tenant| tenant.digest == *digest)
}
