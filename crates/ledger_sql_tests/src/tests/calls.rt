//! The calls that write, by what a test says of them. On a store of which nothing is claimed they
//! have no condition.

use super::acts::{Call, Change, Filled, Made, Row, Stage};
use super::sample::{account, balance, history, pending, post, status};
use super::unclaimed::{Unclaimed, claims_nothing};
use ledger_sql::{adding, creating, setting, stages, upgrading};
use records::Unavailable;
use rows::{BalanceCells, HistoryCells, StatusCells};
use sqlite::Connection;

pub type Done = Result<(), Unavailable>;

pub fn answer<S: Unclaimed>(conn: &mut Connection<S>, call: &Call) -> Done {
    match call {
        Call::Take(stage) => take(conn, stage),
        Call::Make(tables) => make(conn, tables),
        Call::AddVersion => {
            claims_nothing(conn);
            adding::add_version(conn)
        }
        Call::Add(row) => add(conn, row),
        Call::AddHistory(time, debited, credited, amount) => {
            add_history(conn, *time, (*debited, *credited), *amount)
        }
        Call::Set(change) => set(conn, change),
        Call::Fill(cells) => fill(conn, cells),
    }
}

fn take<S: Unclaimed>(conn: &mut Connection<S>, stage: &Stage) -> Done {
    claims_nothing(conn);
    match stage {
        Stage::Begin => stages::begin(conn),
        Stage::Commit => stages::commit(conn),
        Stage::Rollback => stages::rollback(conn),
        Stage::Abandon => {
            stages::abandon(conn);
            Ok(())
        }
        Stage::Mark => stages::mark(conn),
        Stage::BackToMark => stages::back_to_mark(conn),
        Stage::ReleaseMark => stages::release_mark(conn),
    }
}

fn make<S: Unclaimed>(conn: &mut Connection<S>, tables: &Made) -> Done {
    claims_nothing(conn);
    match tables {
        Made::AllTables => creating::make_tables(conn),
        Made::SchemaTable => creating::make_schema(conn),
        Made::TenantTable => creating::make_tenant(conn),
        Made::ClockTable => creating::make_clock(conn),
        Made::AccountTable => creating::make_account(conn),
        Made::TransferTable => creating::make_transfer(conn),
        Made::BalanceTables => creating::make_balance_tables(conn),
    }
}

fn add<S: Unclaimed>(conn: &mut Connection<S>, row: &Row) -> Done {
    claims_nothing(conn);
    match row {
        Row::Tenant(number, name, digest) => {
            adding::add_tenant(conn, *number, name, &[*digest; 32])
        }
        Row::Clock(tenant, clock) => adding::add_clock(conn, *tenant, u64::from(*clock)),
        Row::Account(tenant, id, timestamp, code) => {
            adding::add_account(conn, *tenant, &account(*id, *timestamp, *code))
        }
        Row::Pending(id, timestamp) => adding::add_transfer(conn, 1, &pending(*id, *timestamp)),
        Row::Post => adding::add_transfer(conn, 1, &post()),
        Row::Balance(tenant, id, columns) => {
            adding::add_balance(conn, *tenant, &balance(*id, *columns))
        }
        Row::Status(transfer, state, timestamp) => {
            adding::add_status(conn, 1, &status(*transfer, *state, *timestamp))
        }
        Row::Failed(tenant, id) => adding::add_failed(conn, *tenant, *id),
    }
}

/// The rows of two accounts after a pending transfer.
fn add_history<S: Unclaimed>(
    conn: &mut Connection<S>,
    time: u32,
    accounts: (u128, u128),
    amount: u32,
) -> Done {
    let debit = history(accounts.0, time, [amount, 0, 0, 0]);
    let credit = history(accounts.1, time, [0, 0, amount, 0]);
    claims_nothing(conn);
    adding::add_history(conn, 1, &debit, &credit)
}

fn set<S: Unclaimed>(conn: &mut Connection<S>, change: &Change) -> Done {
    claims_nothing(conn);
    match change {
        Change::NewVersion => setting::set_version(conn),
        Change::NewClock(tenant, clock) => setting::set_clock(conn, *tenant, u64::from(*clock)),
        Change::NewBalance(id, columns) => setting::set_balance(conn, 1, &balance(*id, *columns)),
        Change::NewStatus(transfer, state, timestamp) => {
            setting::set_status(conn, 1, &status(*transfer, *state, *timestamp))
        }
    }
}

fn fill<S: Unclaimed>(conn: &mut Connection<S>, cells: &Filled) -> Done {
    claims_nothing(conn);
    match cells {
        Filled::BalanceCells(id, columns) => {
            let cells = BalanceCells::from_row(&balance(*id, *columns));
            upgrading::fill_balance(conn, 1, &cells)
        }
        Filled::StatusCells(transfer, state, timestamp) => {
            let cells = StatusCells::from_row(&status(*transfer, *state, *timestamp));
            upgrading::fill_status(conn, 1, &cells)
        }
        Filled::HistoryCells(id, timestamp, amount) => {
            let cells = HistoryCells::from_row(&history(*id, *timestamp, [*amount, 0, 0, 0]));
            upgrading::fill_history(conn, 1, &cells)
        }
        Filled::BalanceVersion => upgrading::set_balance_version(conn),
    }
}
