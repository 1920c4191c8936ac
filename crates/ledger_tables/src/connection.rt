//! The tables over a connection of SQL.

use crate::tables::LedgerTables;
use ledger_sql::{
    EntrySink, TableFault, adding, entries, finding, listing, setting, spans, stages,
};
use records::{Account, Transfer, Unavailable};
use rows::{
    AccountCells, BalanceCells, BalanceRow, DirectoryRow, HistoryCells, HistoryRow, StatusCells,
    StatusRow, TransferCells,
};
use sqlite::{Alter, Connection};
use std::alloc::Global;

impl<S: Alter> LedgerTables for Connection<S> {
    ghost use Rattle.sqlite.specs.Held.{state as state_of};

    ghost state = { state_of S.Store };

    fn find_account(&mut self, tenant: i64, id: u128) -> Result<Option<Account>, Unavailable> {
        finding::find_account(self, tenant, id)
    }

    fn find_transfer(&mut self, tenant: i64, id: u128) -> Result<Option<Transfer>, Unavailable> {
        finding::find_transfer(self, tenant, id)
    }

    fn find_balance(
        &mut self,
        tenant: i64,
        account: u128,
    ) -> Result<Option<BalanceRow>, Unavailable> {
        finding::find_balance(self, tenant, account)
    }

    fn find_status(
        &mut self,
        tenant: i64,
        transfer: u128,
    ) -> Result<Option<StatusRow>, Unavailable> {
        finding::find_status(self, tenant, transfer)
    }

    fn has_failed(&mut self, tenant: i64, id: u128) -> Result<bool, Unavailable> {
        finding::has_failed(self, tenant, id)
    }

    fn find_clock(&mut self, tenant: i64) -> Result<Option<u64>, Unavailable> {
        finding::find_clock(self, tenant)
    }

    fn find_tenant(&mut self, digest: &[u8]) -> Result<Option<i64>, Unavailable> {
        finding::find_tenant(self, digest)
    }

    fn find_tenant_by_name(&mut self, name: &str) -> Result<Option<DirectoryRow>, Unavailable> {
        finding::find_tenant_by_name(self, name)
    }

    fn find_tenant_by_number(&mut self, number: i64) -> Result<Option<DirectoryRow>, Unavailable> {
        finding::find_tenant_by_number(self, number)
    }

    fn add_tenant(
        &mut self,
        number: i64,
        name: &str,
        digest: &[u8; 32],
    ) -> Result<(), Unavailable> {
        adding::add_tenant(self, number, name, digest)
    }

    fn add_clock(&mut self, tenant: i64, clock: u64) -> Result<(), Unavailable> {
        adding::add_clock(self, tenant, clock)
    }

    fn add_account(&mut self, tenant: i64, account: &Account) -> Result<(), Unavailable> {
        adding::add_account(self, tenant, account)
    }

    fn add_transfer(&mut self, tenant: i64, transfer: &Transfer) -> Result<(), Unavailable> {
        adding::add_transfer(self, tenant, transfer)
    }

    fn add_balance(&mut self, tenant: i64, row: &BalanceRow) -> Result<(), Unavailable> {
        adding::add_balance(self, tenant, row)
    }

    fn add_status(&mut self, tenant: i64, row: &StatusRow) -> Result<(), Unavailable> {
        adding::add_status(self, tenant, row)
    }

    fn add_history(
        &mut self,
        tenant: i64,
        debit: &HistoryRow,
        credit: &HistoryRow,
    ) -> Result<(), Unavailable> {
        adding::add_history(self, tenant, debit, credit)
    }

    fn add_failed(&mut self, tenant: i64, id: u128) -> Result<(), Unavailable> {
        adding::add_failed(self, tenant, id)
    }

    fn set_balance(&mut self, tenant: i64, row: &BalanceRow) -> Result<(), Unavailable> {
        setting::set_balance(self, tenant, row)
    }

    fn set_status(&mut self, tenant: i64, row: &StatusRow) -> Result<(), Unavailable> {
        setting::set_status(self, tenant, row)
    }

    fn set_clock(&mut self, tenant: i64, clock: u64) -> Result<(), Unavailable> {
        setting::set_clock(self, tenant, clock)
    }

    fn set_digest(&mut self, number: i64, digest: &[u8; 32]) -> Result<(), Unavailable> {
        setting::set_digest(self, number, digest)
    }

    fn oldest_accounts(
        &mut self,
        alloc: Global,
        tenant: i64,
        first: i64,
        last: i64,
        most: u32,
    ) -> Result<Vec<Account>, Unavailable> {
        spans::oldest_accounts(alloc, self, tenant, first, last, most)
    }

    fn oldest_transfers(
        &mut self,
        alloc: Global,
        tenant: i64,
        first: i64,
        last: i64,
        most: u32,
    ) -> Result<Vec<Transfer>, Unavailable> {
        spans::oldest_transfers(alloc, self, tenant, first, last, most)
    }

    fn newest_accounts(
        &mut self,
        alloc: Global,
        tenant: i64,
        first: i64,
        last: i64,
        most: u32,
    ) -> Result<Vec<Account>, Unavailable> {
        spans::newest_accounts(alloc, self, tenant, first, last, most)
    }

    fn newest_transfers(
        &mut self,
        alloc: Global,
        tenant: i64,
        first: i64,
        last: i64,
        most: u32,
    ) -> Result<Vec<Transfer>, Unavailable> {
        spans::newest_transfers(alloc, self, tenant, first, last, most)
    }

    fn first_entries_from<K: EntrySink>(
        &mut self,
        tenant: i64,
        account: u128,
        time: i64,
        count: u32,
        sink: &mut K,
    ) -> Result<(), Unavailable> {
        entries::first_entries_from(self, tenant, account, time, count, sink)
    }

    fn first_entries_until<K: EntrySink>(
        &mut self,
        tenant: i64,
        account: u128,
        time: i64,
        count: u32,
        sink: &mut K,
    ) -> Result<(), Unavailable> {
        entries::first_entries_until(self, tenant, account, time, count, sink)
    }

    fn begin(&mut self) -> Result<(), Unavailable> {
        stages::begin(self)
    }

    fn commit(&mut self) -> Result<(), Unavailable> {
        stages::commit(self)
    }

    fn abandon(&mut self) {
        stages::abandon(self)
    }

    fn mark(&mut self) -> Result<(), Unavailable> {
        stages::mark(self)
    }

    fn back_to_mark(&mut self) -> Result<(), Unavailable> {
        stages::back_to_mark(self)
    }

    fn release_mark(&mut self) -> Result<(), Unavailable> {
        stages::release_mark(self)
    }

    fn is_open(&mut self) -> bool {
        stages::is_open(self)
    }

    fn list_versions(&mut self, alloc: Global) -> Result<Vec<i64>, TableFault> {
        listing::list_versions(alloc, self)
    }

    fn directory(&mut self, alloc: Global) -> Result<Vec<DirectoryRow>, TableFault> {
        listing::directory(alloc, self)
    }

    fn list_clocks(&mut self, alloc: Global, tenant: i64) -> Result<Vec<i64>, TableFault> {
        listing::list_clocks(alloc, self, tenant)
    }

    fn list_accounts(
        &mut self,
        alloc: Global,
        tenant: i64,
    ) -> Result<Vec<AccountCells>, TableFault> {
        listing::list_accounts(alloc, self, tenant)
    }

    fn list_transfers(
        &mut self,
        alloc: Global,
        tenant: i64,
    ) -> Result<Vec<TransferCells>, TableFault> {
        listing::list_transfers(alloc, self, tenant)
    }

    fn list_balances(
        &mut self,
        alloc: Global,
        tenant: i64,
    ) -> Result<Vec<BalanceCells>, TableFault> {
        listing::list_balances(alloc, self, tenant)
    }

    fn list_statuses(
        &mut self,
        alloc: Global,
        tenant: i64,
    ) -> Result<Vec<StatusCells>, TableFault> {
        listing::list_statuses(alloc, self, tenant)
    }

    fn list_history(
        &mut self,
        alloc: Global,
        tenant: i64,
    ) -> Result<Vec<HistoryCells>, TableFault> {
        listing::list_history(alloc, self, tenant)
    }

    fn list_failed(&mut self, alloc: Global, tenant: i64) -> Result<Vec<[u8; 16]>, TableFault> {
        listing::list_failed(alloc, self, tenant)
    }
}
