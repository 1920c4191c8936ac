//! A ledger's calls over trees.

use crate::ledger_trees::LedgerTrees;
use crate::{
    accounts, balances, clock, directory, failed_ids, history, stages, statuses, transfers,
};
use ledger_entries::TenantAccount;
use ledger_sql::{EntrySink, TableFault};
use ledger_tables::LedgerTables;
use records::{Account, Transfer, Unavailable};
use rows::{
    AccountCells, BalanceCells, BalanceRow, DirectoryRow, HistoryCells, HistoryRow, StatusCells,
    StatusRow, TransferCells,
};
use sqlite_trees::store::Store;
use std::alloc::Global;

impl<S: Store> LedgerTables for LedgerTrees<S> {
    ghost use Rattle.keyed_trees.specs.Kept.{state as state_of};
    ghost use Rattle.ledger_sql.specs.Schema.{ledger_schema};

    ghost state = { state_of ledger_schema S.Store };

    fn find_account(&mut self, tenant: i64, id: u128) -> Result<Option<Account>, Unavailable> {
        accounts::find(self, tenant, id)
    }

    fn find_transfer(&mut self, tenant: i64, id: u128) -> Result<Option<Transfer>, Unavailable> {
        transfers::find(self, tenant, id)
    }

    fn find_balance(
        &mut self,
        tenant: i64,
        account: u128,
    ) -> Result<Option<BalanceRow>, Unavailable> {
        balances::find(self, tenant, account)
    }

    fn find_status(
        &mut self,
        tenant: i64,
        transfer: u128,
    ) -> Result<Option<StatusRow>, Unavailable> {
        statuses::find(self, tenant, transfer)
    }

    fn has_failed(&mut self, tenant: i64, id: u128) -> Result<bool, Unavailable> {
        failed_ids::contains(self, tenant, id)
    }

    fn find_clock(&mut self, tenant: i64) -> Result<Option<u64>, Unavailable> {
        clock::find(self, tenant)
    }

    fn find_tenant(&mut self, digest: &[u8]) -> Result<Option<i64>, Unavailable> {
        directory::find_by_digest(self, digest)
    }

    fn find_tenant_by_name(&mut self, name: &str) -> Result<Option<DirectoryRow>, Unavailable> {
        directory::find_by_name(self, name)
    }

    fn find_tenant_by_number(&mut self, number: i64) -> Result<Option<DirectoryRow>, Unavailable> {
        directory::find_by_number(self, number)
    }

    fn add_tenant(
        &mut self,
        number: i64,
        name: &str,
        digest: &[u8; 32],
    ) -> Result<(), Unavailable> {
        directory::add(self, number, name, digest)
    }

    fn add_clock(&mut self, tenant: i64, clock: u64) -> Result<(), Unavailable> {
        clock::add(self, tenant, clock)
    }

    fn add_account(&mut self, tenant: i64, account: &Account) -> Result<(), Unavailable> {
        accounts::add(self, tenant, account)
    }

    fn add_transfer(&mut self, tenant: i64, transfer: &Transfer) -> Result<(), Unavailable> {
        transfers::add(self, tenant, transfer)
    }

    fn add_balance(&mut self, tenant: i64, row: &BalanceRow) -> Result<(), Unavailable> {
        balances::add(self, tenant, row)
    }

    fn add_status(&mut self, tenant: i64, row: &StatusRow) -> Result<(), Unavailable> {
        statuses::add(self, tenant, row)
    }

    fn add_history(
        &mut self,
        tenant: i64,
        debit: &HistoryRow,
        credit: &HistoryRow,
    ) -> Result<(), Unavailable> {
        history::add(self, tenant, debit, credit)
    }

    fn add_failed(&mut self, tenant: i64, id: u128) -> Result<(), Unavailable> {
        failed_ids::add(self, tenant, id)
    }

    fn set_balance(&mut self, tenant: i64, row: &BalanceRow) -> Result<(), Unavailable> {
        balances::set(self, tenant, row)
    }

    fn set_status(&mut self, tenant: i64, row: &StatusRow) -> Result<(), Unavailable> {
        statuses::set(self, tenant, row)
    }

    fn set_clock(&mut self, tenant: i64, clock: u64) -> Result<(), Unavailable> {
        clock::set(self, tenant, clock)
    }

    fn set_digest(&mut self, number: i64, digest: &[u8; 32]) -> Result<(), Unavailable> {
        directory::set_digest(self, number, digest)
    }

    fn oldest_accounts(
        &mut self,
        alloc: Global,
        tenant: i64,
        first: i64,
        last: i64,
        most: u32,
    ) -> Result<Vec<Account>, Unavailable> {
        ledger_spans::oldest_accounts(alloc, &mut self.tables, tenant, first, last, most)
    }

    fn oldest_transfers(
        &mut self,
        alloc: Global,
        tenant: i64,
        first: i64,
        last: i64,
        most: u32,
    ) -> Result<Vec<Transfer>, Unavailable> {
        ledger_spans::oldest_transfers(alloc, &mut self.tables, tenant, first, last, most)
    }

    fn newest_accounts(
        &mut self,
        alloc: Global,
        tenant: i64,
        first: i64,
        last: i64,
        most: u32,
    ) -> Result<Vec<Account>, Unavailable> {
        ledger_spans::newest_accounts(alloc, &mut self.tables, tenant, first, last, most)
    }

    fn newest_transfers(
        &mut self,
        alloc: Global,
        tenant: i64,
        first: i64,
        last: i64,
        most: u32,
    ) -> Result<Vec<Transfer>, Unavailable> {
        ledger_spans::newest_transfers(alloc, &mut self.tables, tenant, first, last, most)
    }

    fn first_entries_from<K: EntrySink>(
        &mut self,
        tenant: i64,
        account: u128,
        time: i64,
        count: u32,
        sink: &mut K,
    ) -> Result<(), Unavailable> {
        let account = TenantAccount {
            tenant,
            id: account,
        };
        ledger_entries::first_entries_from(&mut self.tables, self.alloc, account, time, count, sink)
    }

    fn first_entries_until<K: EntrySink>(
        &mut self,
        tenant: i64,
        account: u128,
        time: i64,
        count: u32,
        sink: &mut K,
    ) -> Result<(), Unavailable> {
        let account = TenantAccount {
            tenant,
            id: account,
        };
        ledger_entries::first_entries_until(
            &mut self.tables,
            self.alloc,
            account,
            time,
            count,
            sink,
        )
    }

    fn begin(&mut self) -> Result<(), Unavailable> {
        stages::begin(self)
    }

    fn commit(&mut self) -> Result<(), Unavailable> {
        stages::commit(self)
    }

    fn abandon(&mut self) {
        stages::abandon(self);
    }

    fn mark(&mut self) -> Result<(), Unavailable> {
        stages::mark(self)
    }

    fn back_to_mark(&mut self) -> Result<(), Unavailable> {
        stages::back_to_mark(self)
    }

    fn release_mark(&mut self) -> Result<(), Unavailable> {
        stages::release_mark(self)
    }

    fn is_open(&mut self) -> bool {
        stages::is_open(self)
    }

    fn list_versions(&mut self, alloc: Global) -> Result<Vec<i64>, TableFault> {
        ledger_spans::list_versions(alloc, &mut self.tables)
    }

    fn directory(&mut self, alloc: Global) -> Result<Vec<DirectoryRow>, TableFault> {
        ledger_spans::directory(alloc, &mut self.tables)
    }

    fn list_clocks(&mut self, alloc: Global, tenant: i64) -> Result<Vec<i64>, TableFault> {
        ledger_spans::list_clocks(alloc, &mut self.tables, tenant)
    }

    fn list_accounts(
        &mut self,
        alloc: Global,
        tenant: i64,
    ) -> Result<Vec<AccountCells>, TableFault> {
        ledger_spans::list_accounts(alloc, &mut self.tables, tenant)
    }

    fn list_transfers(
        &mut self,
        alloc: Global,
        tenant: i64,
    ) -> Result<Vec<TransferCells>, TableFault> {
        ledger_spans::list_transfers(alloc, &mut self.tables, tenant)
    }

    fn list_balances(
        &mut self,
        alloc: Global,
        tenant: i64,
    ) -> Result<Vec<BalanceCells>, TableFault> {
        ledger_spans::list_balances(alloc, &mut self.tables, tenant)
    }

    fn list_statuses(
        &mut self,
        alloc: Global,
        tenant: i64,
    ) -> Result<Vec<StatusCells>, TableFault> {
        ledger_spans::list_statuses(alloc, &mut self.tables, tenant)
    }

    fn list_history(
        &mut self,
        alloc: Global,
        tenant: i64,
    ) -> Result<Vec<HistoryCells>, TableFault> {
        ledger_spans::list_history(alloc, &mut self.tables, tenant)
    }

    fn list_failed(&mut self, alloc: Global, tenant: i64) -> Result<Vec<[u8; 16]>, TableFault> {
        ledger_spans::list_failed(alloc, &mut self.tables, tenant)
    }
}
