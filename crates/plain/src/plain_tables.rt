ghost use Rattle.std.specs.Prelude.{◌≡◌, IfOk};
ghost use Rattle.std.proofs.Common.{refl, ◌∙◌};
ghost use Rattle.records.specs.Balances.{balances_in};
ghost use Rattle.records.specs.Machine.{new_machine};
ghost use Rattle.records.specs.Valid.{IsValid};
ghost use Rattle.plain.specs.Beginning.{beginning_at};
ghost use Rattle.plain.specs.PlainTables.{ascending, machine_copied, plain_meaning};

mod reads;

use crate::balances::balances;
use crate::fate::fate;
use crate::search::{find_account, find_id, find_transfer};
use chain::{AccountEntry, Tables};
use engine::sums_fit;
use records::{
    Accepted, Account, AccountWithBalances, Balances, PendingState, Span, Transfer, Unavailable,
};
use std::alloc::{AllocError, Global};
use std::marker::Model;

/// Where a batch began: how long the lists were, and the clock in nanoseconds.
#[derive(Clone, Copy)]
struct Beginning {
    accounts: usize,
    transfers: usize,
    failed: usize,
    clock: u64,
}

/// A copy of what can change while a mark is open: accounts and transfers, and the clock in
/// nanoseconds. No id fails for good in the meantime.
#[derive(Drop)]
struct Copied {
    accounts: Vec<Account>,
    transfers: Vec<Transfer>,
    clock: u64,
}

/// One tenant's accounts, transfers and failed ids as three lists, each in the order in which they
/// came. Nothing is kept beside them: each call searches and sums anew.
#[derive(Drop)]
pub struct PlainTables {
    accounts: Vec<Account>,
    transfers: Vec<Transfer>,
    failed: Vec<u128>,
    clock: u64,
    begun: Beginning,
    mark: Option<Copied>,
}

impl Model for PlainTables {
    ghost use Rattle.chain.specs.Tables.{State};

    ghost Value = { State };

    ghost use Rattle.plain.specs.PlainTables.{state_in, IsKept};

    ghost view = { state_in };

    ghost invariant = { IsKept };
}

impl PlainTables {
    /// A new tenant, at the beginning of a batch.
    pub fn new(alloc: Global) -> PlainTables
        ensures state { result ≡ beginning_at new_machine }
        ensures usable { IsValid result.now }
    {
        PlainTables {
            accounts: Vec::new(alloc),
            transfers: Vec::new(alloc),
            failed: Vec::new(alloc),
            clock: 0,
            begun: Beginning {
                accounts: 0,
                transfers: 0,
                failed: 0,
                clock: 0,
            },
            mark: None,
        }
    }

    /// A batch begins; a mark that is still open is dropped.
    pub fn begin(&mut self)
        ensures state { self.new ≡ beginning_at self.old.now }
        ensures usable { IsValid self.new.now }
    {
        self.begun = Beginning {
            accounts: self.accounts.len(),
            transfers: self.transfers.len(),
            failed: self.failed.len(),
            clock: self.clock,
        };
        self.mark = None;
    }

    /// Goes back to where the batch began, and drops the mark.
    pub fn abandon(&mut self)
        ensures state { self.new ≡ beginning_at self.old.begun }
        ensures usable { IsValid self.new.now }
    {
        self.accounts.truncate(self.begun.accounts);
        self.transfers.truncate(self.begun.transfers);
        self.failed.truncate(self.begun.failed);
        self.clock = self.begun.clock;
        self.mark = None;
    }

    /// A copy of the lists, at the beginning of a batch.
    pub(crate) fn copy(&self) -> Result<PlainTables, AllocError>
        ensures { IfOk result (λ copy. copy ≡ beginning_at self.now.now) }
    {
        Ok(PlainTables {
            accounts: self.accounts.clone()?,
            transfers: self.transfers.clone()?,
            failed: self.failed.clone()?,
            clock: self.clock,
            begun: Beginning {
                accounts: self.accounts.len(),
                transfers: self.transfers.len(),
                failed: self.failed.len(),
                clock: self.clock,
            },
            mark: None,
        })
    }

    /// The accounts, in order of timestamp.
    pub fn accounts(&self) -> &[Account]
        ensures { result.now ≡ self.now.now.accounts }
    {
        &self.accounts
    }

    /// The transfers, in order of timestamp.
    pub fn transfers(&self) -> &[Transfer]
        ensures { result.now ≡ self.now.now.transfers }
    {
        &self.transfers
    }

    /// The ids that failed for good, in the order in which they did.
    pub fn failed_ids(&self) -> &[u128]
        ensures { ascending result.now ≡ self.now.now.failed }
    {
        &self.failed
    }

    /// Memory ran out, which ends the batch.
    fn give_up(&mut self) -> Result<(), Unavailable>
        ensures result { result ≡ Err Unavailable.Memory }
        ensures state { self.new ≡ beginning_at self.old.begun }
    {
        self.abandon();
        Err(Unavailable::Memory)
    }

    fn copied(&self) -> Result<Copied, AllocError>
        ensures { IfOk result (λ copy. machine_copied copy self.now.now.failed ≡ self.now.now) }
    {
        Ok(Copied {
            accounts: self.accounts.clone()?,
            transfers: self.transfers.clone()?,
            clock: self.clock,
        })
    }

    /// The balances of an account at the clock.
    fn balances(&self, id: u128) -> Balances
        ensures { result ≡ balances_in self.now.now id }
    {
        sums_fit();
        balances(&self.transfers, self.clock, id)
    }
}

impl Tables for PlainTables {
    ghost means = { plain_meaning };

    fn clock(&mut self) -> Result<u64, Unavailable> {
        Ok(self.clock)
    }

    fn account(&mut self, id: u128) -> Result<Option<AccountWithBalances>, Unavailable> {
        let Some(account) = find_account(&self.accounts, id) else {
            return Ok(None);
        };
        let balances = self.balances(account.id);
        Ok(Some(AccountWithBalances { account, balances }))
    }

    fn transfer(&mut self, id: u128) -> Result<Option<Transfer>, Unavailable> {
        Ok(find_transfer(&self.transfers, id))
    }

    fn pending_state(&mut self, id: u128) -> Result<Option<PendingState>, Unavailable> {
        let Some(transfer) = find_transfer(&self.transfers, id) else {
            return Ok(None);
        };
        if transfer.flags.is_pending() {
            Ok(Some(fate(&self.transfers, self.clock, &transfer)))
        } else {
            Ok(None)
        }
    }

    fn failed(&mut self, id: u128) -> Result<bool, Unavailable> {
        Ok(find_id(&self.failed, id))
    }

    fn accounts_within(&mut self, alloc: Global, span: &Span) -> Result<Vec<Account>, Unavailable> {
        let Ok(found) = self.accounts_in(alloc, span) else {
            self.abandon();
            return Err(Unavailable::Memory);
        };
        Ok(found)
    }

    fn transfers_within(
        &mut self,
        alloc: Global,
        span: &Span,
    ) -> Result<Vec<Transfer>, Unavailable> {
        let Ok(found) = self.transfers_in(alloc, span) else {
            self.abandon();
            return Err(Unavailable::Memory);
        };
        Ok(found)
    }

    fn account_entries(
        &mut self,
        alloc: Global,
        account: u128,
        span: &Span,
    ) -> Result<Vec<AccountEntry>, Unavailable> {
        let Ok(found) = self.entries_in(alloc, account, span) else {
            self.abandon();
            return Err(Unavailable::Memory);
        };
        Ok(found)
    }

    fn settle(&mut self, clock: u64) -> Result<(), Unavailable> {
        self.clock = clock;
        Ok(())
    }

    fn accept_account(&mut self, account: &Account) -> Result<(), Unavailable> {
        match self.accounts.push(*account) {
            Ok(()) => Ok(()),
            Err(_) => self.give_up(),
        }
    }

    fn accept_transfer(&mut self, accepted: &Accepted) -> Result<(), Unavailable> {
        match self.transfers.push(accepted.stored) {
            Ok(()) => Ok(()),
            Err(_) => self.give_up(),
        }
    }

    fn record_failed(&mut self, id: u128) -> Result<(), Unavailable> {
        match self.failed.push(id) {
            Ok(()) => Ok(()),
            Err(_) => self.give_up(),
        }
    }

    fn mark(&mut self) -> Result<(), Unavailable> {
        let Ok(copy) = self.copied() else {
            return self.give_up();
        };
        self.mark = Some(copy);
        Ok(())
    }

    fn back_to_mark(&mut self) -> Result<(), Unavailable> {
        let copy = self.mark.take().unwrap();
        self.accounts = copy.accounts;
        self.transfers = copy.transfers;
        self.clock = copy.clock;
        Ok(())
    }

    fn release_mark(&mut self) -> Result<(), Unavailable> {
        self.mark = None;
        Ok(())
    }

    ghost stays = { λ a. refl };

    ghost then = { λ a b c first second. second ∙ first };

    ghost lived = { λ a b follows live. tt };

    ghost valid = { λ a live usable. usable };
}
