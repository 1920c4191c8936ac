//! The calls by which a ledger reads and writes its tables. Each says what it leaves of a state,
//! as rows in trees: no clause speaks of SQL.

ghost use Rattle.std.specs.Prelude.{◌≡◌, ◌<◌, ◌^◌, pos, true, false, [], ◌∷◌, filter, map};
ghost use Rattle.std.specs.Prelude.{string_bytes, All, IsPermutation, IsTrue, OnErr, OnOk};
ghost use Rattle.std.specs.List.{list_any};
ghost use Rattle.std.specs.Option.{ForSome};
ghost use Rattle.sqlite_value.specs.Order.{column};
ghost use Rattle.sqlite_value.specs.declared.value.Value.TheVariants.{Int};
ghost use Rattle.sqlite.specs.State.{HasCleanDisk, State, Survives};
ghost use Rattle.amount.specs.Column.{column_of};
ghost use Rattle.rows.specs.Cells.{account_cells, balance_cells, history_cells, status_cells};
ghost use Rattle.rows.specs.Cells.{transfer_cells};
ghost use Rattle.rows.specs.Widths.{IsStorableAccount, IsStorableBalance, IsStorableStatus};
ghost use Rattle.rows.specs.Widths.{IsStorableTransfer};
ghost use Rattle.ledger_sql.specs.Calls.{AnyWidth, LeavesFound, LeavesLearnt, LeavesListed};
ghost use Rattle.ledger_sql.specs.Calls.{LeavesOver, LeavesRead, LeavesWritten, OverLedger};
ghost use Rattle.ledger_sql.specs.Effects.{AddsFileRow, AddsRows, IsInside, SetsDigest, SetsOne};
ghost use Rattle.ledger_sql.specs.Entries.{AreNewestFirst, AreOldestFirst, HandsUpTo, ReadsUpTo};
ghost use Rattle.ledger_sql.specs.Entries.{entries_when};
ghost use Rattle.ledger_sql.specs.Frames.{Follows, IsKeptOrUndone, Live};
ghost use Rattle.ledger_sql.specs.Reading.{ReadsRows, account_cmp, balance_cmp, clock_cmp};
ghost use Rattle.ledger_sql.specs.Reading.{directory_cmp, history_cmp, id_cmp, status_cmp};
ghost use Rattle.ledger_sql.specs.Reading.{transfer_cmp};
ghost use Rattle.ledger_sql.specs.Schema.{account_tree, balance_tree, clock_tree, failed_tree};
ghost use Rattle.ledger_sql.specs.Schema.{history_tree, status_tree, tenant_tree, transfer_tree};
ghost use Rattle.ledger_sql.specs.Schema.{after_schema, after_tenant, balance_schema};
ghost use Rattle.ledger_sql.specs.Schema.{ledger_schema, list_schema};
ghost use Rattle.ledger_sql.specs.Spans.{AscendAt, DescendAt, accounts_between, transfers_between};
ghost use Rattle.ledger_sql.specs.Stages.{HasBegun, HasCommitted, HasGoneBack, HasMarked};
ghost use Rattle.ledger_sql.specs.Stages.{HasReleased, IsMarked, TellsOpen};
ghost use Rattle.ledger_sql.specs.TableRows.{account_rows, balance_rows, clock_rows};
ghost use Rattle.ledger_sql.specs.TableRows.{directory_rows, failed_rows, history_rows};
ghost use Rattle.ledger_sql.specs.TableRows.{status_rows, transfer_rows, has_id, is_from, is_int};
ghost use Rattle.ledger_sql.specs.TableRows.{is_until, numbers_with_digest, version_rows, with_id};
ghost use Rattle.ledger_sql.specs.TableRows.{with_name};
ghost use Rattle.ledger_sql.specs.Values.{account_values, balance_values, clock_values};
ghost use Rattle.ledger_sql.specs.Values.{directory_values, history_values, id_values};
ghost use Rattle.ledger_sql.specs.Values.{status_values, transfer_values, version_values};
ghost use Rattle.ledger_rules.specs.Whole.{IsWhole};
ghost use Rattle.ledger_tables.specs.Calls.{HasSeenLedger, IfHonest, LeavesRowFound};

use ledger_sql::{EntrySink, TableFault};
use records::{Account, Transfer, Unavailable};
use rows::{
    AccountCells, BalanceCells, BalanceRow, DirectoryRow, HistoryCells, HistoryRow, StatusCells,
    StatusRow, TransferCells,
};
use std::alloc::Global;

/// The tables of a ledger, in a transaction or outside one. A call that fails has changed nothing,
/// or the transaction is undone.
pub trait LedgerTables {
    /// The tables as the transaction sees them and as they were committed, and what a crash leaves.
    ghost state: { Self → State };

    /// A tenant's account with this id.
    fn find_account(&mut self, tenant: i64, id: u128) -> Result<Option<Account>, Unavailable>
        ensures { LeavesRowFound IsStorableAccount (λ row. account_values (account_cells row))
            (λ trees. with_id (column_of id) (account_rows tenant trees))
            (state self.old) (state self.new) result };

    /// A tenant's transfer with this id.
    fn find_transfer(&mut self, tenant: i64, id: u128) -> Result<Option<Transfer>, Unavailable>
        ensures { LeavesRowFound IsStorableTransfer (λ row. transfer_values (transfer_cells row))
            (λ trees. with_id (column_of id) (transfer_rows tenant trees))
            (state self.old) (state self.new) result };

    /// The balances of a tenant's account with this id, at the tenant's clock.
    fn find_balance(
        &mut self,
        tenant: i64,
        account: u128,
    ) -> Result<Option<BalanceRow>, Unavailable>
        ensures { LeavesRowFound IsStorableBalance (λ row. balance_values (balance_cells row))
            (λ trees. with_id (column_of account) (balance_rows tenant trees))
            (state self.old) (state self.new) result };

    /// The state of a tenant's pending transfer with this id, at the tenant's clock.
    fn find_status(&mut self, tenant: i64, transfer: u128) -> Result<Option<StatusRow>, Unavailable>
        ensures { LeavesRowFound IsStorableStatus (λ row. status_values (status_cells row))
            (λ trees. with_id (column_of transfer) (status_rows tenant trees))
            (state self.old) (state self.new) result };

    /// Whether a tenant's transfer with this id has failed.
    fn has_failed(&mut self, tenant: i64, id: u128) -> Result<bool, Unavailable>
        ensures { LeavesLearnt OverLedger
            (λ trees failed. failed ≡ list_any (has_id (column_of id)) (failed_rows tenant trees))
            (state self.old) (state self.new) result };

    /// A tenant's clock, in nanoseconds.
    fn find_clock(&mut self, tenant: i64) -> Result<Option<u64>, Unavailable>
        ensures { LeavesRowFound AnyWidth (λ clock. clock_values (pos clock))
            (λ trees. clock_rows tenant trees) (state self.old) (state self.new) result };

    /// The number of the tenant whose key has this digest.
    fn find_tenant(&mut self, digest: &[u8]) -> Result<Option<i64>, Unavailable>
        ensures { LeavesRowFound AnyWidth (λ number. Int number ∷ [])
            (λ trees. numbers_with_digest digest.now trees)
            (state self.old) (state self.new) result };

    /// The directory's row with this name.
    fn find_tenant_by_name(&mut self, name: &str) -> Result<Option<DirectoryRow>, Unavailable>
        ensures { LeavesRowFound AnyWidth
            (λ row. directory_values row.number (string_bytes row.name) row.digest)
            (λ trees. with_name name.now (directory_rows trees))
            (state self.old) (state self.new) result };

    /// The directory's row with this number.
    fn find_tenant_by_number(&mut self, number: i64) -> Result<Option<DirectoryRow>, Unavailable>
        ensures { LeavesRowFound AnyWidth
            (λ row. directory_values row.number (string_bytes row.name) row.digest)
            (λ trees. filter (λ row. is_int number (column row 0)) (directory_rows trees))
            (state self.old) (state self.new) result };

    /// Adds a tenant to the directory. The digest is that of the tenant's key.
    fn add_tenant(&mut self, number: i64, name: &str, digest: &[u8; 32]) -> Result<(), Unavailable>
        requires { IfHonest IsInside (state self.old) }
        ensures { LeavesWritten (AddsFileRow directory_rows tenant_tree
            (directory_values number name.now digest.now))
            (state self.old) (state self.new) result };

    /// Adds a new tenant's clock, in nanoseconds.
    fn add_clock(&mut self, tenant: i64, clock: u64) -> Result<(), Unavailable>
        requires inside { IfHonest IsInside (state self.old) }
        requires fits { clock < 2 ^ 63 }
        ensures { LeavesWritten (AddsRows clock_rows clock_tree tenant
            (clock_values (pos clock) ∷ [])) (state self.old) (state self.new) result };

    /// Adds an account to a tenant's.
    fn add_account(&mut self, tenant: i64, account: &Account) -> Result<(), Unavailable>
        requires inside { IfHonest IsInside (state self.old) }
        requires fits { account.now.timestamp < 2 ^ 63 }
        ensures { LeavesWritten (AddsRows account_rows account_tree tenant
            (account_values (account_cells account.now) ∷ []))
            (state self.old) (state self.new) result };

    /// Adds a transfer to a tenant's.
    fn add_transfer(&mut self, tenant: i64, transfer: &Transfer) -> Result<(), Unavailable>
        requires inside { IfHonest IsInside (state self.old) }
        requires timestamp { transfer.now.timestamp < 2 ^ 63 }
        requires at { transfer.now.at < 2 ^ 63 }
        ensures { LeavesWritten (AddsRows transfer_rows transfer_tree tenant
            (transfer_values (transfer_cells transfer.now) ∷ []))
            (state self.old) (state self.new) result };

    /// Adds the balances of a tenant's new account.
    fn add_balance(&mut self, tenant: i64, row: &BalanceRow) -> Result<(), Unavailable>
        requires { IfHonest IsInside (state self.old) }
        ensures { LeavesWritten (AddsRows balance_rows balance_tree tenant
            (balance_values (balance_cells row.now) ∷ []))
            (state self.old) (state self.new) result };

    /// Adds the state of a tenant's new pending transfer.
    fn add_status(&mut self, tenant: i64, row: &StatusRow) -> Result<(), Unavailable>
        requires inside { IfHonest IsInside (state self.old) }
        requires due { ForSome row.now.due (λ due. due < 2 ^ 63) }
        ensures { LeavesWritten (AddsRows status_rows status_tree tenant
            (status_values (status_cells row.now) ∷ [])) (state self.old) (state self.new) result };

    /// Adds the balances of a tenant's transfer's two accounts as it leaves them.
    fn add_history(
        &mut self,
        tenant: i64,
        debit: &HistoryRow,
        credit: &HistoryRow,
    ) -> Result<(), Unavailable>
        requires inside { IfHonest IsInside (state self.old) }
        requires debit { debit.now.timestamp < 2 ^ 63 }
        requires credit { credit.now.timestamp < 2 ^ 63 }
        ensures { LeavesWritten (AddsRows history_rows history_tree tenant
            (history_values (history_cells debit.now) ∷
            history_values (history_cells credit.now) ∷ []))
            (state self.old) (state self.new) result };

    /// Adds the id of a tenant's transfer that failed.
    fn add_failed(&mut self, tenant: i64, id: u128) -> Result<(), Unavailable>
        requires { IfHonest IsInside (state self.old) }
        ensures { LeavesWritten (AddsRows failed_rows failed_tree tenant
            (id_values (column_of id) ∷ [])) (state self.old) (state self.new) result };

    /// Sets the balances of a tenant's account.
    fn set_balance(&mut self, tenant: i64, row: &BalanceRow) -> Result<(), Unavailable>
        requires { IfHonest IsInside (state self.old) }
        ensures { LeavesWritten (SetsOne balance_rows balance_tree tenant
            (has_id (column_of row.now.account)) (balance_values (balance_cells row.now)))
            (state self.old) (state self.new) result };

    /// Sets the state of a tenant's pending transfer.
    fn set_status(&mut self, tenant: i64, row: &StatusRow) -> Result<(), Unavailable>
        requires inside { IfHonest IsInside (state self.old) }
        requires due { ForSome row.now.due (λ due. due < 2 ^ 63) }
        ensures { LeavesWritten (SetsOne status_rows status_tree tenant
            (has_id (column_of row.now.transfer)) (status_values (status_cells row.now)))
            (state self.old) (state self.new) result };

    /// Sets a tenant's clock, in nanoseconds.
    fn set_clock(&mut self, tenant: i64, clock: u64) -> Result<(), Unavailable>
        requires inside { IfHonest IsInside (state self.old) }
        requires fits { clock < 2 ^ 63 }
        ensures { LeavesWritten (SetsOne clock_rows clock_tree tenant (λ _. true)
            (clock_values (pos clock))) (state self.old) (state self.new) result };

    /// Sets the digest of a tenant's key. Its number and its name stay.
    fn set_digest(&mut self, number: i64, digest: &[u8; 32]) -> Result<(), Unavailable>
        requires { IfHonest IsInside (state self.old) }
        ensures { LeavesWritten (SetsDigest number digest.now)
            (state self.old) (state self.new) result };

    /// A tenant's oldest accounts of a span of time, at most `most`, in order of time.
    fn oldest_accounts(
        &mut self,
        alloc: Global,
        tenant: i64,
        first: i64,
        last: i64,
        most: u32,
    ) -> Result<Vec<Account>, Unavailable>
        ensures { LeavesFound (λ read. All IsStorableAccount read.items)
            (λ trees read. ReadsUpTo (λ a. account_values (account_cells a)) most
            (accounts_between tenant first last trees) (AscendAt 7) read.items)
            (state self.old) (state self.new) result };

    /// A tenant's oldest transfers of a span of time, at most `most`, in order of time.
    fn oldest_transfers(
        &mut self,
        alloc: Global,
        tenant: i64,
        first: i64,
        last: i64,
        most: u32,
    ) -> Result<Vec<Transfer>, Unavailable>
        ensures { LeavesFound (λ read. All IsStorableTransfer read.items)
            (λ trees read. ReadsUpTo (λ t. transfer_values (transfer_cells t)) most
            (transfers_between tenant first last trees) (AscendAt 12) read.items)
            (state self.old) (state self.new) result };

    /// A tenant's newest accounts of a span of time, at most `most`, the newest first.
    fn newest_accounts(
        &mut self,
        alloc: Global,
        tenant: i64,
        first: i64,
        last: i64,
        most: u32,
    ) -> Result<Vec<Account>, Unavailable>
        ensures { LeavesFound (λ read. All IsStorableAccount read.items)
            (λ trees read. ReadsUpTo (λ a. account_values (account_cells a)) most
            (accounts_between tenant first last trees) (DescendAt 7) read.items)
            (state self.old) (state self.new) result };

    /// A tenant's newest transfers of a span of time, at most `most`, the newest first.
    fn newest_transfers(
        &mut self,
        alloc: Global,
        tenant: i64,
        first: i64,
        last: i64,
        most: u32,
    ) -> Result<Vec<Transfer>, Unavailable>
        ensures { LeavesFound (λ read. All IsStorableTransfer read.items)
            (λ trees read. ReadsUpTo (λ t. transfer_values (transfer_cells t)) most
            (transfers_between tenant first last trees) (DescendAt 12) read.items)
            (state self.old) (state self.new) result };

    /// Hands the entries of a tenant's account from a time on, oldest first, at most `count`, to a
    /// sink until it is full.
    fn first_entries_from<K: EntrySink>(
        &mut self,
        tenant: i64,
        account: u128,
        time: i64,
        count: u32,
        sink: &mut K,
    ) -> Result<(), Unavailable>
        requires { K.is_full sink.old ≡ false }
        ensures handed { HandsUpTo K.takes K.is_full
            (HasSeenLedger (state self.old) (state self.new)) count
            (entries_when tenant (column_of account) (is_from time) (state self.old).now.trees)
            AreOldestFirst sink.old sink.new result }
        ensures reads { LeavesRead (state self.old) (state self.new) result };

    /// Hands the entries of a tenant's account up to a time, newest first, at most `count`, to a
    /// sink until it is full.
    fn first_entries_until<K: EntrySink>(
        &mut self,
        tenant: i64,
        account: u128,
        time: i64,
        count: u32,
        sink: &mut K,
    ) -> Result<(), Unavailable>
        requires { K.is_full sink.old ≡ false }
        ensures handed { HandsUpTo K.takes K.is_full
            (HasSeenLedger (state self.old) (state self.new)) count
            (entries_when tenant (column_of account) (is_until time) (state self.old).now.trees)
            AreNewestFirst sink.old sink.new result }
        ensures reads { LeavesRead (state self.old) (state self.new) result };

    /// Opens a transaction.
    fn begin(&mut self) -> Result<(), Unavailable>
        ensures { LeavesWritten HasBegun (state self.old) (state self.new) result };

    /// Commits the transaction, whose rows have keys of their own. A crash in it leaves what was
    /// committed before or what was written.
    fn commit(&mut self) -> Result<(), Unavailable>
        requires { Live (state self.old) → IsWhole (state self.old).now.trees }
        ensures ok { HasCleanDisk (state self.new) → OnOk result
            (HasCommitted (state self.old) (state self.new)) }
        ensures err { HasCleanDisk (state self.new) → OnErr result
            (IsKeptOrUndone (state self.old) (state self.new)) }
        ensures survives { Survives (state self.old) (state self.new)
            (λ db. db ≡ (state self.old).now.trees) };

    /// Ends the transaction, if one is open, with nothing of it kept.
    fn abandon(&mut self)
        ensures { LeavesOver (state self.old) (state self.new) };

    /// Marks in a transaction where to go back to.
    fn mark(&mut self) -> Result<(), Unavailable>
        requires { IfHonest (λ s. IsTrue s.in_transaction) (state self.old) }
        ensures { LeavesWritten HasMarked (state self.old) (state self.new) result };

    /// Goes back to the newest mark, which stays.
    fn back_to_mark(&mut self) -> Result<(), Unavailable>
        requires { IfHonest IsMarked (state self.old) }
        ensures { LeavesWritten HasGoneBack (state self.old) (state self.new) result };

    /// Drops the newest mark, and keeps what was written since.
    fn release_mark(&mut self) -> Result<(), Unavailable>
        requires { IfHonest IsMarked (state self.old) }
        ensures { LeavesWritten HasReleased (state self.old) (state self.new) result };

    /// Whether the store is open, asked outside a transaction. It may answer false where memory ran
    /// out.
    fn is_open(&mut self) -> bool
        ensures tells { HasCleanDisk (state self.new) →
            TellsOpen result (state self.old) (state self.new) }
        ensures follows { Follows (state self.old) (state self.new) };

    /// The versions of the schema that a file names.
    fn list_versions(&mut self, alloc: Global) -> Result<Vec<i64>, TableFault>
        ensures { LeavesListed after_schema (λ trees read. IsPermutation (version_rows trees)
            (map version_values read.items)) (state self.old) (state self.new) result };

    /// The directory, in order of the tenants' numbers.
    fn directory(&mut self, alloc: Global) -> Result<Vec<DirectoryRow>, TableFault>
        ensures { LeavesListed after_tenant (λ trees read. ReadsRows
            (λ row. directory_values row.number (string_bytes row.name) row.digest) directory_cmp
            (directory_rows trees) read.items) (state self.old) (state self.new) result };

    /// A tenant's clock, as the file has it, in nanoseconds.
    fn list_clocks(&mut self, alloc: Global, tenant: i64) -> Result<Vec<i64>, TableFault>
        ensures { LeavesListed list_schema (λ trees read. ReadsRows clock_values clock_cmp
            (clock_rows tenant trees) read.items) (state self.old) (state self.new) result };

    /// A tenant's accounts, in order of id.
    fn list_accounts(&mut self, alloc: Global, tenant: i64) -> Result<Vec<AccountCells>, TableFault>
        ensures { LeavesListed list_schema (λ trees read. ReadsRows account_values account_cmp
            (account_rows tenant trees) read.items) (state self.old) (state self.new) result };

    /// A tenant's transfers, in order of id.
    fn list_transfers(
        &mut self,
        alloc: Global,
        tenant: i64,
    ) -> Result<Vec<TransferCells>, TableFault>
        ensures { LeavesListed list_schema (λ trees read. ReadsRows transfer_values transfer_cmp
            (transfer_rows tenant trees) read.items) (state self.old) (state self.new) result };

    /// A tenant's balances, in order of account.
    fn list_balances(&mut self, alloc: Global, tenant: i64) -> Result<Vec<BalanceCells>, TableFault>
        ensures { LeavesListed balance_schema (λ trees read. ReadsRows balance_values balance_cmp
            (balance_rows tenant trees) read.items) (state self.old) (state self.new) result };

    /// The states of a tenant's pending transfers, in order of id.
    fn list_statuses(&mut self, alloc: Global, tenant: i64) -> Result<Vec<StatusCells>, TableFault>
        ensures { LeavesListed balance_schema (λ trees read. ReadsRows status_values status_cmp
            (status_rows tenant trees) read.items) (state self.old) (state self.new) result };

    /// A tenant's history, in order of account and timestamp.
    fn list_history(&mut self, alloc: Global, tenant: i64) -> Result<Vec<HistoryCells>, TableFault>
        ensures { LeavesListed balance_schema (λ trees read. ReadsRows history_values history_cmp
            (history_rows tenant trees) read.items) (state self.old) (state self.new) result };

    /// The ids of a tenant's failed transfers, in order.
    fn list_failed(&mut self, alloc: Global, tenant: i64) -> Result<Vec<[u8; 16]>, TableFault>
        ensures { LeavesListed ledger_schema (λ trees read. ReadsRows id_values id_cmp
            (failed_rows tenant trees) read.items) (state self.old) (state self.new) result };
}
