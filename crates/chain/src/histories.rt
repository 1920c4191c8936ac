//! The history of an account, as work on one tenant's tables: its transfers, and its balances after
//! them.

ghost use Rattle.std.specs.Prelude.{◌≡◌, map, IfOk};
ghost use Rattle.records.specs.Reads.{history_answer, history_balances_answer};
ghost use Rattle.chain.specs.AccountEntries.{account_entries, asked_entry, balance_of, entry_time};
ghost use Rattle.chain.specs.AccountEntries.{page_asked};
ghost use Rattle.chain.specs.LedgerReads.{seen_of_list};
ghost use Rattle.chain.specs.Looks.{Answers};
ghost use Rattle.chain.specs.Records.{entry_records};

use crate::pages::first_shown;
use crate::query::{Query, Source};
use crate::reading::AccountFault;
use crate::{AccountEntry, Listed, Tables, Work};
use records::{AccountFilter, BalanceAt, PageFilter, PageFlags, Span, Transfer, Unavailable};
use std::alloc::{AllocError, Global};

/// The transfers that a filter asks for.
#[derive(Drop)]
pub(crate) struct TransfersOf {
    pub(crate) alloc: Global,
    pub(crate) asked: AccountFilter,
}

impl Work for TransfersOf {
    type Output = Result<Listed<Transfer>, AccountFault>;

    ghost gives = { λ work. Answers seen_of_list (λ m. history_answer m work.asked) };

    fn run<T: Tables>(
        self,
        tables: &mut T,
    ) -> Result<Result<Listed<Transfer>, AccountFault>, Unavailable> {
        let clock = tables.clock()?;
        let Some(_) = tables.account(self.asked.account_id)? else {
            return Ok(Err(AccountFault::NoAccount));
        };
        let asked = self.asked;
        let found = first_shown(self.alloc, tables, &EntryQuery { asked })?;
        let entries = transfers_of(self.alloc, &found)?;
        Ok(Ok(Listed { clock, entries }))
    }
}

/// The balances of the account after each transfer that a filter asks for.
#[derive(Drop)]
pub(crate) struct BalancesOf {
    pub(crate) alloc: Global,
    pub(crate) asked: AccountFilter,
}

impl Work for BalancesOf {
    type Output = Result<Listed<BalanceAt>, AccountFault>;

    ghost gives = { λ work. Answers seen_of_list (λ m. history_balances_answer m work.asked) };

    fn run<T: Tables>(
        self,
        tables: &mut T,
    ) -> Result<Result<Listed<BalanceAt>, AccountFault>, Unavailable> {
        let clock = tables.clock()?;
        let Some(found) = tables.account(self.asked.account_id)? else {
            return Ok(Err(AccountFault::NoAccount));
        };
        if !found.account.flags.keeps_history() {
            return Ok(Err(AccountFault::NoHistory));
        }
        let asked = self.asked;
        let found = first_shown(self.alloc, tables, &EntryQuery { asked })?;
        let entries = balances_of(self.alloc, &found)?;
        Ok(Ok(Listed { clock, entries }))
    }
}

/// The transfers of some entries.
fn transfers_of(alloc: Global, entries: &[AccountEntry]) -> Result<Vec<Transfer>, AllocError>
    ensures { IfOk result (λ found. found.items ≡ map (λ entry. entry.transfer) entries.now) }
{
    entries.iter().map(|entry| entry.transfer).collect(alloc)
}

/// The balances after some entries.
fn balances_of(alloc: Global, entries: &[AccountEntry]) -> Result<Vec<BalanceAt>, AllocError>
    ensures { IfOk result (λ found. found.items ≡ map balance_of entries.now) }
{
    entries.iter().map(AccountEntry::balance_at).collect(alloc)
}

/// The entries of an account that a filter asks for.
#[derive(Drop)]
struct EntryQuery {
    asked: AccountFilter,
}

impl Source for EntryQuery {
    type Record = AccountEntry;

    ghost records_in = { λ query m. account_entries m query.asked.account_id };

    ghost is_kept = { λ m entry. Unit {0} };

    ghost time_of = { entry_time };

    fn time(&self, entry: &AccountEntry) -> u64 {
        entry.transfer.timestamp
    }

    fn within<T: Tables>(
        &self,
        alloc: Global,
        tables: &mut T,
        span: &Span,
    ) -> Result<Vec<AccountEntry>, Unavailable> {
        tables.account_entries(alloc, self.asked.account_id, span)
    }

    ghost in_turn = { λ query m valid. entry_records m valid query.asked.account_id };
}

impl Query for EntryQuery {
    type Shown = AccountEntry;

    ghost shown_in = { λ query m entry. asked_entry query.asked entry };

    ghost asks = { λ query. page_asked query.asked };

    fn page(&self) -> PageFilter {
        PageFilter {
            timestamp_min: self.asked.timestamp_min,
            timestamp_max: self.asked.timestamp_max,
            limit: self.asked.limit,
            flags: PageFlags(u16::from(self.asked.flags.is_newest_first())),
        }
    }

    fn show<T: Tables>(
        &self,
        _tables: &mut T,
        entry: &AccountEntry,
    ) -> Result<Option<AccountEntry>, Unavailable> {
        if self.asked.asks_side(&entry.transfer) {
            Ok(Some(*entry))
        } else {
            Ok(None)
        }
    }
}
