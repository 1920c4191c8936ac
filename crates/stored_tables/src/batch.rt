use crate::failing::or_give_up;
use crate::laws::{held_machines, point_reads};
use crate::settling::move_clock;
use crate::{accepting, account_entries, reading, spans};
use chain::{AccountEntry, Tables};
use ledger_tables::LedgerTables;
use records::{Accepted, Account, AccountWithBalances, PendingState, Span, Transfer, Unavailable};
use rows::single_rows;
use std::alloc::Global;
use std::collections::BTreeSet;

/// The number under which the tables keep a tenant's rows.
#[derive(Clone, Copy, Debug, PartialEq, Eq)]
pub struct TenantNumber(pub i64);

/// One tenant's tables inside an open transaction.
///
/// After `Unavailable` the transaction is over.
#[derive(Drop)]
pub struct Batch<'a, T: LedgerTables> {
    pub tables: &'a mut T,
    /// The due time, in nanoseconds, and the id of every open pending transfer that has a due time.
    /// It may have others too.
    pub due: &'a mut BTreeSet<(u64, u128)>,
    pub tenant: TenantNumber,
    /// A moment, in nanoseconds, at which the tenant's clock was already: what fell due by then is
    /// open no more.
    pub past: u64,
}

impl<T: LedgerTables> Tables for Batch<'_, T> {
    ghost use Rattle.std.specs.Prelude.{refl};
    ghost use Rattle.std.proofs.Common.{ap, ◌∙◌};
    ghost use Rattle.stored_tables.specs.BatchLaws.{calls_itself, calls_then_for};
    ghost use Rattle.stored_tables.specs.BatchLaws.{live_before, valid_now};
    ghost use Rattle.stored_tables.specs.Meaning.{tables_meaning};

    ghost means = { tables_meaning T.state ⟦<(u64, u128) as Ord>⟧.cmp };

    fn clock(&mut self) -> Result<u64, Unavailable> {
        let clock = reading::clock(self.tables, self.tenant);
        or_give_up(self.tables, clock)
    }

    fn account(&mut self, id: u128) -> Result<Option<AccountWithBalances>, Unavailable> {
        let found = reading::account(self.tables, self.tenant, id);
        or_give_up(self.tables, found)
    }

    fn transfer(&mut self, id: u128) -> Result<Option<Transfer>, Unavailable> {
        point_reads();
        let found = self.tables.find_transfer(self.tenant.0, id);
        or_give_up(self.tables, found)
    }

    fn pending_state(&mut self, id: u128) -> Result<Option<PendingState>, Unavailable> {
        point_reads();
        single_rows();
        let found = self.tables.find_status(self.tenant.0, id);
        let row = or_give_up(self.tables, found)?;
        Ok(row.map(|row| row.state))
    }

    fn failed(&mut self, id: u128) -> Result<bool, Unavailable> {
        point_reads();
        let failed = self.tables.has_failed(self.tenant.0, id);
        or_give_up(self.tables, failed)
    }

    fn accounts_within(&mut self, alloc: Global, span: &Span) -> Result<Vec<Account>, Unavailable> {
        let found = spans::accounts(alloc, self.tables, self.tenant, span);
        or_give_up(self.tables, found)
    }

    fn transfers_within(
        &mut self,
        alloc: Global,
        span: &Span,
    ) -> Result<Vec<Transfer>, Unavailable> {
        let found = spans::transfers(alloc, self.tables, self.tenant, span);
        or_give_up(self.tables, found)
    }

    fn account_entries(
        &mut self,
        alloc: Global,
        account: u128,
        span: &Span,
    ) -> Result<Vec<AccountEntry>, Unavailable> {
        let found = account_entries::account_entries(
            alloc,
            self.tables,
            self.tenant,
            account,
            span,
        );
        or_give_up(self.tables, found)
    }

    fn settle(&mut self, clock: u64) -> Result<(), Unavailable> {
        held_machines();
        let done = move_clock(self.tables, self.due, self.tenant, self.past, clock);
        or_give_up(self.tables, done)
    }

    fn accept_account(&mut self, account: &Account) -> Result<(), Unavailable> {
        accepting::accept_account(self.tables, self.tenant, account)
    }

    fn accept_transfer(&mut self, accepted: &Accepted) -> Result<(), Unavailable> {
        accepting::accept_transfer(self.tables, self.due, self.tenant, accepted)
    }

    fn record_failed(&mut self, id: u128) -> Result<(), Unavailable> {
        accepting::record_failed(self.tables, self.tenant, id)
    }

    fn mark(&mut self) -> Result<(), Unavailable> {
        let done = self.tables.mark();
        or_give_up(self.tables, done)
    }

    fn back_to_mark(&mut self) -> Result<(), Unavailable> {
        let undone = self.tables.back_to_mark();
        or_give_up(self.tables, undone)?;
        let closed = self.tables.release_mark();
        or_give_up(self.tables, closed)
    }

    fn release_mark(&mut self) -> Result<(), Unavailable> {
        let done = self.tables.release_mark();
        or_give_up(self.tables, done)
    }

    ghost stays = { λ a. (refl, refl, refl, λ key has. has, calls_itself _ _, refl) };

    ghost then = { λ a b c f g. (
      g.0 ∙ f.0,
      g.1 ∙ f.1,
      g.2 ∙ f.2,
      λ key has. g.3 key (f.3 key has),
      calls_then_for _ _ _ _ _ (ap (λ t. t.0) f.2) f.4 g.4,
      g.5 ∙ f.5,
    ) };

    ghost lived = { λ a b follows live. live_before _ _ follows.4.calls live };

    ghost valid = { λ a live usable. valid_now _ _ live usable.0 };
}
