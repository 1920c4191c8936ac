//! What a command or an operator changes of a ledger's tenants.
ghost use Rattle.std.specs.Prelude.{◌≡◌, MatchResult, OnOk};
ghost use Rattle.sqlite_wal.specs.Files.{image_at};
ghost use Rattle.store.specs.Stores.{StoreFollows, IsHonest, IsLive, OfDatabases};
ghost use Rattle.command_texts.specs.Answered.{PutsText, TellsIfAvailable};
ghost use Rattle.commands.specs.Changing.{IsCallFor, IsChangeIn, IsChangedAs, IsOpenedFor};
ghost use Rattle.commands.specs.Changing.{add_fault, change_line, key_fault};
ghost use Rattle.commands.specs.Openings.{RefusesImage};
ghost use Rattle.commands.specs.Orders.{IsChangeTried};

use crate::counting::CountingAudit;
use crate::opening::{Opened, open_file, open_or_make};
use crate::stores::may_be_called;
use chain::InUse;
use command_texts::{Fault, put_added, put_changed};
use control::{Call, added_in, changed_in};
use records::Drain;
use sqlite_disk::{Disk, Start};
use sqlite_std_file::FileFrom;
use std::alloc::Global;
use store::{AddTenant, ChangeKey, Store};
use tenants::TenantName;

/// A change of a ledger's tenants, by a name and a key.
#[derive(Clone, Copy, Debug, PartialEq, Eq)]
pub(crate) enum TenantChange {
    /// A tenant of the name is added, who is known by the key.
    Adding,
    /// The tenant of the name is known by the key, and no longer by another.
    Keying,
}

impl TenantChange {
    /// The call that asks a service for it.
    pub(crate) fn call<'a>(self, tenant: &'a TenantName, key: &'a str) -> Call<'a>
        ensures { IsCallFor self tenant.entry.now key.entry.now result }
    {
        let name = tenant.as_str();
        match self {
            TenantChange::Adding => Call::AddTenant { name, key },
            TenantChange::Keying => Call::ChangeKey { name, key },
        }
    }

    /// Sees to it that the body of an answer tells that it is made. Else it is `Unavailable`.
    pub(crate) fn is_told_in(
        self,
        alloc: Global,
        body: &[u8],
        tenant: &TenantName,
    ) -> Result<(), Fault>
        ensures { TellsIfAvailable result (λ done. IsChangeIn self tenant.now body.now) }
    {
        match self {
            TenantChange::Adding => added_in(alloc, body, tenant),
            TenantChange::Keying => changed_in(alloc, body, tenant),
        }
    }

    /// Tells that it is made.
    pub(crate) fn put<O: Drain>(self, out: &mut O, tenant: &TenantName) -> Result<(), Fault>
        ensures { PutsText (change_line self tenant.now) O.written O.failed out.old out.new result }
    {
        match self {
            TenantChange::Adding => put_added(out, tenant),
            TenantChange::Keying => put_changed(out, tenant),
        }
    }

    /// The ledger in a file, for it. Only for a new tenant one is made where there is none.
    pub(crate) fn open<St: Start>(
        self,
        rt: &HostRuntime,
        db: &str,
        start: St,
    ) -> Result<Opened<FileFrom<St>>, Fault>
        ensures { MatchResult result
            (λ opened. IsOpenedFor self opened.is_new (image_at St.Start) opened.store)
            (RefusesImage ⟦<FileFrom<St> as Disk>⟧ (image_at St.Start)) }
    {
        match self {
            TenantChange::Adding => open_or_make(rt, db, start),
            TenantChange::Keying => Ok(Opened {
                store: open_file(rt, db, start, &CountingAudit::new())?,
                is_new: false,
            }),
        }
    }

    /// Makes it in a store.
    pub(crate) fn make<D: Disk + Drop>(
        self,
        store: &mut InUse<Store<D>>,
        name: &TenantName,
        digest: &[u8; 32],
    ) -> Result<(), Fault>
        ensures told { IsLive store.new → OfDatabases
            (λ old new. IsChangedAs self name.now digest.now old new result) store.old store.new }
        ensures moves { IsChangeTried self digest.now store.old result store.new }
        ensures follows { StoreFollows store.old store.new }
        ensures open { IsHonest store.new → OnOk result (IsLive store.new) }
    {
        let made = match self {
            TenantChange::Adding => store.backend.add_tenant(name, digest).map_err(add_fault),
            TenantChange::Keying => store.backend.change_key(name, digest).map_err(key_fault),
        };
        may_be_called(store);
        made
    }
}

// What the program tells where a tenant is not added.
fn add_fault(why: AddTenant) -> Fault
    ensures { result ≡ add_fault why }
{
    match why {
        AddTenant::NameTaken => Fault::NameTaken,
        AddTenant::DigestTaken => Fault::DigestTaken,
        AddTenant::Unavailable(_) => Fault::Unavailable,
    }
}

// What it tells where a key is not changed.
fn key_fault(why: ChangeKey) -> Fault
    ensures { result ≡ key_fault why }
{
    match why {
        ChangeKey::NoTenant => Fault::NoTenant,
        ChangeKey::DigestTaken => Fault::DigestTaken,
        ChangeKey::Unavailable(_) => Fault::Unavailable,
    }
}
