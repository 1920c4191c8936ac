//! Rows that are replaced, inside a transaction. Each text sets the whole row; only a tenant keeps
//! its name.

ghost use Rattle.std.specs.Prelude.{◌<◌, ◌^◌, pos, true};
ghost use Rattle.std.specs.Option.{ForSome};
ghost use Rattle.amount.specs.Column.{column_of};
ghost use Rattle.rows.specs.Cells.{balance_cells, status_cells};
ghost use Rattle.ledger_sql.specs.Calls.{IfClean, Writes};
ghost use Rattle.ledger_sql.specs.Effects.{IsInside, SetsOne, SetsDigest, SetsVersion};
ghost use Rattle.ledger_sql.specs.Schema.{clock_tree, balance_tree, status_tree, current_version};
ghost use Rattle.ledger_sql.specs.TableRows.{clock_rows, balance_rows, status_rows, has_id};
ghost use Rattle.ledger_sql.specs.Values.{clock_values, balance_values, status_values};

use crate::cause::done;
use crate::params::balance_params;
use records::Unavailable;
use rows::{BalanceCells, BalanceRow, StatusCells, StatusRow};
use sqlite::{Alter, Connection, params};

/// Sets the balances of a tenant's account.
pub fn set_balance<S: Alter>(
    conn: &mut Connection<S>,
    tenant: i64,
    row: &BalanceRow,
) -> Result<(), Unavailable>
    requires { IfClean IsInside S.Store conn.old }
    ensures { Writes (SetsOne balance_rows balance_tree tenant (has_id (column_of row.now.account))
        (balance_values (balance_cells row.now))) S.Store conn.old conn.new result }
{
    let cells = BalanceCells::from_row(row);
    done(conn.execute(
        "UPDATE balance SET tenant = ?1, account = ?2, dp = ?3, dd = ?4, cp = ?5, cc = ?6 WHERE \
            tenant = ?1 AND account = ?2",
        &balance_params(tenant, &cells),
    ))
}

/// Sets what has become of a tenant's pending transfer.
pub fn set_status<S: Alter>(
    conn: &mut Connection<S>,
    tenant: i64,
    row: &StatusRow,
) -> Result<(), Unavailable>
    requires inside { IfClean IsInside S.Store conn.old }
    requires due { ForSome row.now.due (λ due. due < 2 ^ 63) }
    ensures { Writes (SetsOne status_rows status_tree tenant (has_id (column_of row.now.transfer))
        (status_values (status_cells row.now))) S.Store conn.old conn.new result }
{
    let cells = StatusCells::from_row(row);
    done(conn.execute(
        "UPDATE status SET tenant = ?1, transfer = ?2, state = ?3, due = ?4 WHERE tenant = ?1 \
            AND transfer = ?2",
        params![tenant, cells.transfer.as_slice(), cells.state, cells.due],
    ))
}

/// Sets a tenant's clock, in nanoseconds.
pub fn set_clock<S: Alter>(
    conn: &mut Connection<S>,
    tenant: i64,
    clock: u64,
) -> Result<(), Unavailable>
    requires inside { IfClean IsInside S.Store conn.old }
    requires fits { clock < 2 ^ 63 }
    ensures { Writes (SetsOne clock_rows clock_tree tenant (λ _. true) (clock_values (pos clock)))
        S.Store conn.old conn.new result }
{
    done(conn.execute(
        "UPDATE clock SET clock = ?2 WHERE tenant = ?1",
        params![tenant, clock as i64],
    ))
}

/// Sets the digest of a tenant's key. Its number and its name stay.
pub fn set_digest<S: Alter>(
    conn: &mut Connection<S>,
    number: i64,
    digest: &[u8; 32],
) -> Result<(), Unavailable>
    requires { IfClean IsInside S.Store conn.old }
    ensures { Writes (SetsDigest number digest.now) S.Store conn.old conn.new result }
{
    done(conn.execute(
        "UPDATE tenant SET digest = ?2 WHERE no = ?1",
        params![number, digest.as_slice()],
    ))
}

/// Sets the version of the file to that of the current schema.
pub fn set_version<S: Alter>(conn: &mut Connection<S>) -> Result<(), Unavailable>
    requires { IfClean IsInside S.Store conn.old }
    ensures { Writes (SetsVersion current_version) S.Store conn.old conn.new result }
{
    done(conn.execute("UPDATE schema SET version = 3", &[]))
}
