//! New rows, written inside a transaction.

ghost use Rattle.std.specs.Prelude.{◌<◌, ◌^◌, pos, [], ◌∷◌};
ghost use Rattle.std.specs.Option.{ForSome};
ghost use Rattle.amount.specs.Column.{column_of};
ghost use Rattle.rows.specs.Cells.{account_cells, transfer_cells, balance_cells, status_cells, history_cells};
ghost use Rattle.ledger_sql.specs.Calls.{IfClean, Writes};
ghost use Rattle.ledger_sql.specs.Effects.{IsInside, AddsRows, AddsFileRow};
ghost use Rattle.ledger_sql.specs.Schema.{schema_tree, tenant_tree, clock_tree, account_tree, transfer_tree, balance_tree, status_tree, history_tree, failed_tree, current_version};
ghost use Rattle.ledger_sql.specs.TableRows.{version_rows, directory_rows, clock_rows, account_rows, transfer_rows, balance_rows, status_rows, history_rows, failed_rows};
ghost use Rattle.ledger_sql.specs.Values.{version_values, directory_values, clock_values, account_values, transfer_values, balance_values, status_values, history_values, id_values};

use crate::cause::done;
use crate::params::balance_params;
use records::{Account, Transfer, Unavailable};
use rows::{
    AccountCells, BalanceCells, BalanceRow, HistoryCells, HistoryRow, StatusCells, StatusRow,
    TransferCells,
};
use sqlite::{Alter, Connection, params};

/// A row of balances more.
pub(crate) const INSERT_BALANCE: &str =
    "INSERT INTO balance (tenant, account, dp, dd, cp, cc) VALUES (?1, ?2, ?3, ?4, ?5, ?6)";

/// A state of a pending transfer more.
pub(crate) const INSERT_STATUS: &str =
    "INSERT INTO status (tenant, transfer, state, due) VALUES (?1, ?2, ?3, ?4)";

/// Adds the current version of the schema to a file that has none.
pub fn add_version<S: Alter>(conn: &mut Connection<S>) -> Result<(), Unavailable>
    requires { IfClean IsInside S.Store conn.old }
    ensures { Writes (AddsFileRow version_rows schema_tree (version_values current_version))
        S.Store conn.old conn.new result }
{
    done(conn.execute("INSERT INTO schema (version) VALUES (3)", &[]))
}

/// Adds a tenant to the directory. The digest is that of the tenant's key.
pub fn add_tenant<S: Alter>(
    conn: &mut Connection<S>,
    number: i64,
    name: &str,
    digest: &[u8; 32],
) -> Result<(), Unavailable>
    requires { IfClean IsInside S.Store conn.old }
    ensures { Writes (AddsFileRow directory_rows tenant_tree
        (directory_values number name.now digest.now)) S.Store conn.old conn.new result }
{
    done(conn.execute(
        "INSERT INTO tenant (no, name, digest) VALUES (?1, ?2, ?3)",
        params![number, name, digest.as_slice()],
    ))
}

/// Adds a new tenant's clock, in nanoseconds.
pub fn add_clock<S: Alter>(
    conn: &mut Connection<S>,
    tenant: i64,
    clock: u64,
) -> Result<(), Unavailable>
    requires inside { IfClean IsInside S.Store conn.old }
    requires fits { clock < 2 ^ 63 }
    ensures { Writes (AddsRows clock_rows clock_tree tenant (clock_values (pos clock) ∷ []))
        S.Store conn.old conn.new result }
{
    done(conn.execute(
        "INSERT INTO clock (tenant, clock) VALUES (?1, ?2)",
        params![tenant, clock as i64],
    ))
}

/// Adds an account to a tenant's.
pub fn add_account<S: Alter>(
    conn: &mut Connection<S>,
    tenant: i64,
    account: &Account,
) -> Result<(), Unavailable>
    requires inside { IfClean IsInside S.Store conn.old }
    requires fits { account.now.timestamp < 2 ^ 63 }
    ensures { Writes (AddsRows account_rows account_tree tenant
        (account_values (account_cells account.now) ∷ [])) S.Store conn.old conn.new result }
{
    let cells = AccountCells::from_account(account);
    done(conn.execute(
        "INSERT INTO account (tenant, id, user_data_128, user_data_64, user_data_32, ledger, \
            code, flags, timestamp) VALUES (?1, ?2, ?3, ?4, ?5, ?6, ?7, ?8, ?9)",
        params![
            tenant,
            cells.id.as_slice(),
            cells.user_data_128.as_slice(),
            cells.user_data_64.as_slice(),
            cells.user_data_32,
            cells.ledger,
            cells.code,
            cells.flags,
            cells.timestamp
        ],
    ))
}

/// Adds a transfer to a tenant's.
pub fn add_transfer<S: Alter>(
    conn: &mut Connection<S>,
    tenant: i64,
    transfer: &Transfer,
) -> Result<(), Unavailable>
    requires inside { IfClean IsInside S.Store conn.old }
    requires timestamp { transfer.now.timestamp < 2 ^ 63 }
    requires at { transfer.now.at < 2 ^ 63 }
    ensures { Writes (AddsRows transfer_rows transfer_tree tenant
        (transfer_values (transfer_cells transfer.now) ∷ [])) S.Store conn.old conn.new result }
{
    let cells = TransferCells::from_transfer(transfer);
    done(conn.execute(
        "INSERT INTO transfer (tenant, id, debit, credit, amount, pending_id, user_data_128, \
            user_data_64, user_data_32, timeout, ledger, code, flags, timestamp, at_clock) \
            VALUES (?1, ?2, ?3, ?4, ?5, ?6, ?7, ?8, ?9, ?10, ?11, ?12, ?13, ?14, ?15)",
        params![
            tenant,
            cells.id.as_slice(),
            cells.debit.as_slice(),
            cells.credit.as_slice(),
            cells.amount.as_slice(),
            cells.pending_id.as_slice(),
            cells.user_data_128.as_slice(),
            cells.user_data_64.as_slice(),
            cells.user_data_32,
            cells.timeout,
            cells.ledger,
            cells.code,
            cells.flags,
            cells.timestamp,
            cells.at_clock
        ],
    ))
}

/// Adds the balances of a tenant's new account.
pub fn add_balance<S: Alter>(
    conn: &mut Connection<S>,
    tenant: i64,
    row: &BalanceRow,
) -> Result<(), Unavailable>
    requires { IfClean IsInside S.Store conn.old }
    ensures { Writes (AddsRows balance_rows balance_tree tenant
        (balance_values (balance_cells row.now) ∷ [])) S.Store conn.old conn.new result }
{
    let cells = BalanceCells::from_row(row);
    done(conn.execute(INSERT_BALANCE, &balance_params(tenant, &cells)))
}

/// Adds what has become of a tenant's new pending transfer.
pub fn add_status<S: Alter>(
    conn: &mut Connection<S>,
    tenant: i64,
    row: &StatusRow,
) -> Result<(), Unavailable>
    requires inside { IfClean IsInside S.Store conn.old }
    requires due { ForSome row.now.due (λ due. due < 2 ^ 63) }
    ensures { Writes (AddsRows status_rows status_tree tenant
        (status_values (status_cells row.now) ∷ [])) S.Store conn.old conn.new result }
{
    let cells = StatusCells::from_row(row);
    done(conn.execute(
        INSERT_STATUS,
        params![tenant, cells.transfer.as_slice(), cells.state, cells.due],
    ))
}

/// Adds what the balances of a tenant's transfer's two accounts come to directly after it.
pub fn add_history<S: Alter>(
    conn: &mut Connection<S>,
    tenant: i64,
    debit: &HistoryRow,
    credit: &HistoryRow,
) -> Result<(), Unavailable>
    requires inside { IfClean IsInside S.Store conn.old }
    requires debit { debit.now.timestamp < 2 ^ 63 }
    requires credit { credit.now.timestamp < 2 ^ 63 }
    ensures { Writes (AddsRows history_rows history_tree tenant
        (history_values (history_cells debit.now) ∷ history_values (history_cells credit.now) ∷ []))
        S.Store conn.old conn.new result }
{
    let of_debit = HistoryCells::from_row(debit);
    let of_credit = HistoryCells::from_row(credit);
    done(conn.execute(
        "INSERT INTO history (tenant, account, timestamp, dp, dd, cp, cc) VALUES (?1, ?2, ?3, \
            ?4, ?5, ?6, ?7), (?1, ?8, ?9, ?10, ?11, ?12, ?13)",
        params![
            tenant,
            of_debit.account.as_slice(),
            of_debit.timestamp,
            of_debit.dp.as_slice(),
            of_debit.dd.as_slice(),
            of_debit.cp.as_slice(),
            of_debit.cc.as_slice(),
            of_credit.account.as_slice(),
            of_credit.timestamp,
            of_credit.dp.as_slice(),
            of_credit.dd.as_slice(),
            of_credit.cp.as_slice(),
            of_credit.cc.as_slice()
        ],
    ))
}

/// Adds the id of a tenant's transfer that failed.
pub fn add_failed<S: Alter>(
    conn: &mut Connection<S>,
    tenant: i64,
    id: u128,
) -> Result<(), Unavailable>
    requires { IfClean IsInside S.Store conn.old }
    ensures { Writes (AddsRows failed_rows failed_tree tenant (id_values (column_of id) ∷ []))
        S.Store conn.old conn.new result }
{
    let column = id.to_be_bytes();
    done(conn.execute(
        "INSERT INTO failed (tenant, id) VALUES (?1, ?2)",
        params![tenant, column.as_slice()],
    ))
}
