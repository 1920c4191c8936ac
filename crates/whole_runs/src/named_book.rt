//! Lists, as ledgers that can be opened again.
ghost use Rattle.std.specs.Prelude.{ℕ, ◌≡◌, List, None};
ghost use Rattle.std.specs.List.{position};
ghost use Rattle.chain.specs.Ledgers.{AreValid, KeepsAll};
ghost use Rattle.plain.specs.BookLedgers.{machines_in};
ghost use Rattle.stored_ledgers.specs.Names.{KeepsNames};
ghost use Rattle.whole_runs.specs.BookNames.{IsNamedBook, has_name, names_among};

use crate::Reopening;
use chain::InUse;
use ledger_http::Reply;
use plain::{Book, PlainTables};
use records::Unavailable;
use service::{Message, Settles, respond, respond_round, responses_happen};
use std::alloc::Global;
use std::marker::Model;
use store::{AddTenant, ChangeKey, Refused};
use tenants::TenantName;
use wire::NoMemory;

/// The name of a tenant, and the digest by which the book knows it.
#[derive(Drop)]
struct Named {
    name: TenantName,
    digest: [u8; 32],
}

/// Ledgers over lists, whose tenants have names. They are opened again as they are.
#[derive(Drop)]
pub struct NamedBook {
    alloc: Global,
    book: InUse<Book>,
    names: Vec<Named>,
}

impl Model for NamedBook {
    ghost use Rattle.whole_runs.specs.BookNames.{NamedTenants, IsNamedBook};

    ghost Value = { NamedTenants };

    ghost view = { λ it. record { book = it.book; names = it.names.items } };

    ghost invariant = { λ it. IsNamedBook it.book it.names.items };
}

/// Lists, of which an opening finds nothing.
struct Lists;

impl Settles<InUse<Book>> for Lists {
    fn is_settled(_ledgers: &InUse<Book>) {}
}

/// A law: the machines of a book in use are valid.
fn are_valid(book: &InUse<Book>)
    ensures { AreValid (machines_in book.now) }
{
    let _book = &book.backend;
}

impl NamedBook {
    /// Ledgers without tenants.
    pub fn new(alloc: Global) -> NamedBook
        ensures live { ⟦<NamedBook as Reopening>⟧.means.is_live result }
        ensures empty { (digest : List ℕ)
            → ⟦<NamedBook as Reopening>⟧.means.tenants result digest ≡ None }
        ensures unnamed { (name : List ℕ)
            → ⟦<NamedBook as Reopening>⟧.names.named result name ≡ None }
    {
        NamedBook {
            alloc,
            book: InUse {
                backend: Book::new(alloc),
            },
            names: Vec::new(alloc),
        }
    }

    /// A law: they are always live.
    pub fn are_live(&self)
        ensures { ⟦<NamedBook as Reopening>⟧.means.is_live self.now }
    {
        let _names = &self.names;
    }
}

// The place of the tenant with this name.
fn place_of(names: &[Named], name: &TenantName) -> Option<usize>
    ensures { result ≡ position (has_name name.now) names.now }
{
    names
        .iter()
        .position(|named| named.name.as_str() == name.as_str())
}

impl Reopening for NamedBook {
    ghost means = { record {
      tenants = λ named. machines_in named.book;
      is_live = λ named. IsNamedBook named.book named.names;
      may_find = λ named found. KeepsAll (machines_in named.book) found;
    } };

    ghost names = { record {
      named = λ named. names_among named.names;
      may_find = λ named found. KeepsNames (names_among named.names) found;
    } };

    ghost has_failed = { λ named. ⊥ };

    ghost refuses = { λ refused old new. ⊥ };

    fn is_settled(&self) {}

    fn reply_to(&mut self, alloc: Global, bytes: &[u8], moment: u64) -> Reply {
        responses_happen();
        let reply = respond(alloc, &mut self.book, bytes, moment);
        are_valid(&self.book);
        reply
    }

    fn reply_to_round(
        &mut self,
        alloc: Global,
        messages: &[Message],
    ) -> Result<Vec<Reply>, NoMemory> {
        let replies = respond_round::<InUse<Book>, Lists>(alloc, &mut self.book, messages);
        are_valid(&self.book);
        replies
    }

    fn join(&mut self, name: &TenantName, digest: &[u8; 32]) -> Result<(), AddTenant> {
        if place_of(&self.names, name).is_some() {
            return Err(AddTenant::NameTaken);
        }
        let book = &mut self.book;
        if book.backend.holds(digest) {
            return Err(AddTenant::DigestTaken);
        }
        if self.names.reserve(1).is_err() {
            return Err(AddTenant::Unavailable(Unavailable::Memory));
        }
        match book.backend.add(*digest, PlainTables::new(self.alloc)) {
            Ok(()) => {
                self.names.push_reserved(Named {
                    name: *name,
                    digest: *digest,
                });
                Ok(())
            }
            Err(why) => Err(AddTenant::Unavailable(why)),
        }
    }

    fn change_key(&mut self, name: &TenantName, digest: &[u8; 32]) -> Result<(), ChangeKey> {
        let Some(place) = place_of(&self.names, name) else {
            return Err(ChangeKey::NoTenant);
        };
        let was = self.names[place].digest;
        let book = &mut self.book;
        if was != *digest && book.backend.holds(digest) {
            return Err(ChangeKey::DigestTaken);
        }
        book.backend.rekey(&was, digest);
        self.names[place].digest = *digest;
        Ok(())
    }

    fn open_again(&mut self) -> Result<(), Refused> {
        self.are_live();
        Ok(())
    }

    ghost valid = { λ a live. live.0 };
}
