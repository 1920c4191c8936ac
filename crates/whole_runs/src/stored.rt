//! A store in use, as ledgers that can be opened again.

use crate::reopening::Reopening;
use chain::InUse;
use ledger_http::Reply;
use service::{Message, Settles, respond, respond_round, responses_move};
use sqlite_disk::Disk;
use std::alloc::Global;
use store::{AddTenant, ChangeKey, FullAudit, Refused, Store, names_are_given};
use tenants::TenantName;
use wire::NoMemory;

/// Stores: while one is open, a crash leaves what is there.
struct Stores;

impl<D: Disk + Drop> Settles<InUse<Store<D>>> for Stores {
    fn is_settled(ledgers: &InUse<Store<D>>) {
        ledgers.backend.is_settled();
    }
}

impl<D: Disk + Drop> Reopening for InUse<Store<D>> {
    ghost use Rattle.std.specs.Prelude.{◌≡◌, false};
    ghost use Rattle.chain.specs.Backends.{in_use};
    ghost use Rattle.service.specs.Openings.{run_meaning};
    ghost use Rattle.store.specs.StoreLaws.{store_meaning, valid_tenants};
    ghost use Rattle.store.specs.Stores.{LeavesStore};
    ghost use Rattle.whole_runs.specs.StoredNames.{store_names};

    ghost means = { run_meaning (in_use store_meaning) };

    ghost names = { store_names };

    ghost has_failed = { λ store. store.ready ≡ false };

    ghost refuses = { λ refused old new. LeavesStore refused old new };

    fn is_settled(&self) {
        self.backend.is_settled();
        self.backend.are_named();
    }

    fn reply_to(&mut self, alloc: Global, bytes: &[u8], moment: u64) -> Reply {
        responses_move::<InUse<Store<D>>>();
        let reply = respond(alloc, self, bytes, moment);
        Stores::is_settled(self);
        reply
    }

    fn reply_to_round(
        &mut self,
        alloc: Global,
        messages: &[Message],
    ) -> Result<Vec<Reply>, NoMemory> {
        respond_round::<InUse<Store<D>>, Stores>(alloc, self, messages)
    }

    fn join(&mut self, name: &TenantName, digest: &[u8; 32]) -> Result<(), AddTenant> {
        names_are_given();
        self.backend.is_settled();
        let joined = self.backend.add_tenant(name, digest);
        self.backend.is_settled();
        joined
    }

    fn change_key(&mut self, name: &TenantName, digest: &[u8; 32]) -> Result<(), ChangeKey> {
        names_are_given();
        self.backend.is_settled();
        let keyed = self.backend.change_key(name, digest);
        self.backend.is_settled();
        keyed
    }

    fn open_again(&mut self) -> Result<(), Refused> {
        self.backend.is_settled();
        let opened = self.backend.reopen(&FullAudit);
        self.backend.is_settled();
        opened
    }

    ghost valid = { λ a live. valid_tenants a live.0 live.1 };
}
