//! The calls of a ledger's tables, by what a test says of them, and their answers as texts.

use super::sample::{account, balance, history, status, transfer};
use super::sinks::Taken;
use super::unclaimed::{Unclaimed, claims_nothing};
use ledger_tables::LedgerTables;
use std::alloc::Global;
use std::fmt::Debug;
use std::test::Fail;

#[derive(Clone, Copy, Debug)]
pub enum Stage {
    Begin,
    Commit,
    Abandon,
    Mark,
    BackToMark,
    ReleaseMark,
    IsOpen,
}

/// A call that looks for one row.
#[derive(Clone, Copy, Debug)]
pub enum Finding {
    Account,
    Transfer,
    Balance,
    Status,
    Failed,
}

/// A row of a tenant, by its id and its time.
#[derive(Clone, Copy, Debug)]
pub enum Writing {
    Account,
    Transfer,
    Balance,
    Status,
    /// The rows of the account with this id, and of its neighbour.
    History,
    Failed,
    SetBalance,
    SetStatus,
}

#[derive(Clone, Copy, Debug)]
pub enum Span {
    OldestAccounts,
    OldestTransfers,
    NewestAccounts,
    NewestTransfers,
}

/// The first and last time of a span, and how many rows at most.
#[derive(Clone, Copy, Debug)]
pub struct Within {
    pub first: i64,
    pub last: i64,
    pub most: u32,
}

#[derive(Clone, Copy, Debug)]
pub enum Call {
    Take(Stage),
    Find(Finding, i64, u128),
    FindClock(i64),
    /// By the digest that begins with this byte.
    FindTenant(u8),
    FindName(&'static str),
    FindNumber(i64),
    AddTenant(i64, &'static str, u8),
    AddClock(i64, u32),
    Write(Writing, i64, u128, u32),
    SetClock(i64, u32),
    SetDigest(i64, u8),
    Read(Span, i64, Within),
    /// The entries of an account from a time on, at most this many.
    EntriesFrom(i64, u128, i64, u32),
    EntriesUntil(i64, u128, i64, u32),
}

/// The answer to a call, as a text.
pub fn answer<T: Unclaimed>(tables: &mut T, alloc: Global, call: &Call) -> Result<String, Fail> {
    match call {
        Call::Take(stage) => take(tables, alloc, *stage),
        Call::Find(kind, tenant, id) => find(tables, alloc, *kind, *tenant, *id),
        Call::FindClock(tenant) => text(alloc, &tables.find_clock(*tenant)),
        Call::FindTenant(digest) => text(alloc, &tables.find_tenant(&[*digest; 32])),
        Call::FindName(name) => text(alloc, &tables.find_tenant_by_name(name)),
        Call::FindNumber(number) => text(alloc, &tables.find_tenant_by_number(*number)),
        Call::Write(row, tenant, id, time) => write(tables, alloc, *row, (*tenant, *id, *time)),
        Call::Read(span, tenant, within) => read(tables, alloc, *span, *tenant, within),
        Call::EntriesFrom(tenant, account, time, count) => {
            let mut taken = Taken::new(alloc);
            let outcome = tables.first_entries_from(*tenant, *account, *time, *count, &mut taken);
            entries(alloc, outcome.is_ok(), &taken)
        }
        Call::EntriesUntil(tenant, account, time, count) => {
            let mut taken = Taken::new(alloc);
            let outcome = tables.first_entries_until(*tenant, *account, *time, *count, &mut taken);
            entries(alloc, outcome.is_ok(), &taken)
        }
        _ => file(tables, alloc, call),
    }
}

/// A call on the tables that no tenant owns.
fn file<T: Unclaimed>(tables: &mut T, alloc: Global, call: &Call) -> Result<String, Fail> {
    claims_nothing(tables);
    match call {
        Call::AddTenant(number, name, digest) => {
            text(alloc, &tables.add_tenant(*number, name, &[*digest; 32]))
        }
        Call::AddClock(tenant, clock) => {
            text(alloc, &tables.add_clock(*tenant, u64::from(*clock)))
        }
        Call::SetClock(tenant, clock) => {
            text(alloc, &tables.set_clock(*tenant, u64::from(*clock)))
        }
        Call::SetDigest(number, digest) => {
            text(alloc, &tables.set_digest(*number, &[*digest; 32]))
        }
        _ => text(alloc, call),
    }
}

fn take<T: Unclaimed>(tables: &mut T, alloc: Global, stage: Stage) -> Result<String, Fail> {
    claims_nothing(tables);
    match stage {
        Stage::Begin => text(alloc, &tables.begin()),
        Stage::Commit => text(alloc, &tables.commit()),
        Stage::Abandon => {
            tables.abandon();
            text(alloc, &())
        }
        Stage::Mark => text(alloc, &tables.mark()),
        Stage::BackToMark => text(alloc, &tables.back_to_mark()),
        Stage::ReleaseMark => text(alloc, &tables.release_mark()),
        Stage::IsOpen => text(alloc, &tables.is_open()),
    }
}

fn find<T: Unclaimed>(
    tables: &mut T,
    alloc: Global,
    kind: Finding,
    tenant: i64,
    id: u128,
) -> Result<String, Fail> {
    match kind {
        Finding::Account => text(alloc, &tables.find_account(tenant, id)),
        Finding::Transfer => text(alloc, &tables.find_transfer(tenant, id)),
        Finding::Balance => text(alloc, &tables.find_balance(tenant, id)),
        Finding::Status => text(alloc, &tables.find_status(tenant, id)),
        Finding::Failed => text(alloc, &tables.has_failed(tenant, id)),
    }
}

fn write<T: Unclaimed>(
    tables: &mut T,
    alloc: Global,
    row: Writing,
    (tenant, id, time): (i64, u128, u32),
) -> Result<String, Fail> {
    claims_nothing(tables);
    let done = match row {
        Writing::Account => tables.add_account(tenant, &account(id, time)),
        Writing::Transfer => tables.add_transfer(tenant, &transfer(id, time)),
        Writing::Balance => tables.add_balance(tenant, &balance(id, time)),
        Writing::Status => tables.add_status(tenant, &status(id, time)),
        Writing::History => {
            let (debit, credit) = (history(id, time), history(id ^ 1, time));
            tables.add_history(tenant, &debit, &credit)
        }
        Writing::Failed => tables.add_failed(tenant, id),
        Writing::SetBalance => tables.set_balance(tenant, &balance(id, time)),
        Writing::SetStatus => tables.set_status(tenant, &status(id, time)),
    };
    text(alloc, &done)
}

fn read<T: Unclaimed>(
    tables: &mut T,
    alloc: Global,
    span: Span,
    tenant: i64,
    within: &Within,
) -> Result<String, Fail> {
    let Within { first, last, most } = *within;
    match span {
        Span::OldestAccounts => {
            text(
                alloc,
                &tables.oldest_accounts(alloc, tenant, first, last, most),
            )
        }
        Span::OldestTransfers => {
            text(
                alloc,
                &tables.oldest_transfers(alloc, tenant, first, last, most),
            )
        }
        Span::NewestAccounts => {
            text(
                alloc,
                &tables.newest_accounts(alloc, tenant, first, last, most),
            )
        }
        Span::NewestTransfers => {
            text(
                alloc,
                &tables.newest_transfers(alloc, tenant, first, last, most),
            )
        }
    }
}

/// All tables of a file with these tenants, as a text.
pub fn whole<T: Unclaimed>(tables: &mut T, alloc: Global, tenants: &[i64]) -> Result<String, Fail> {
    let mut all = String::new(alloc);
    all.push_str(text(alloc, &tables.list_versions(alloc))?.as_str())?;
    all.push_str(text(alloc, &tables.directory(alloc))?.as_str())?;
    for tenant in tenants {
        all.push_str(tables_of(tables, alloc, *tenant)?.as_str())?;
    }
    Ok(all)
}

/// All rows of a tenant, as a text.
fn tables_of<T: Unclaimed>(tables: &mut T, alloc: Global, tenant: i64) -> Result<String, Fail> {
    let mut all = text(alloc, &tables.list_clocks(alloc, tenant))?;
    all.push_str(text(alloc, &tables.list_accounts(alloc, tenant))?.as_str())?;
    all.push_str(text(alloc, &tables.list_transfers(alloc, tenant))?.as_str())?;
    all.push_str(text(alloc, &tables.list_balances(alloc, tenant))?.as_str())?;
    all.push_str(text(alloc, &tables.list_statuses(alloc, tenant))?.as_str())?;
    all.push_str(text(alloc, &tables.list_history(alloc, tenant))?.as_str())?;
    all.push_str(text(alloc, &tables.list_failed(alloc, tenant))?.as_str())?;
    Ok(all)
}

fn entries(alloc: Global, is_ok: bool, taken: &Taken) -> Result<String, Fail> {
    Ok(format!(in alloc; "{is_ok} {:?}", taken.entries)?)
}

fn text<V: Debug>(alloc: Global, value: &V) -> Result<String, Fail> {
    Ok(format!(in alloc; "{value:?}\n")?)
}
