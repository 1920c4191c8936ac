//! The rows that an upgrade computes, written into the tables of the balance schema inside the
//! transaction that made these, and that schema's version.

ghost use Rattle.std.specs.Prelude.{pos, [], ◌∷◌};
ghost use Rattle.ledger_sql.specs.Calls.{IfClean, Writes};
ghost use Rattle.ledger_sql.specs.Creating.{IsMaking};
ghost use Rattle.ledger_sql.specs.Effects.{AddsRows, SetsVersion};
ghost use Rattle.ledger_sql.specs.Schema.{balance_schema, balance_tree, status_tree, history_tree};
ghost use Rattle.ledger_sql.specs.TableRows.{balance_rows, status_rows, history_rows};
ghost use Rattle.ledger_sql.specs.Values.{balance_values, status_values, history_values};

use crate::adding::{INSERT_BALANCE, INSERT_STATUS};
use crate::cause::done;
use crate::params::balance_params;
use records::Unavailable;
use rows::{BalanceCells, HistoryCells, StatusCells};
use sqlite::{Alter, Connection, params};

/// Adds the balances of a tenant's account.
pub fn fill_balance<S: Alter>(
    conn: &mut Connection<S>,
    tenant: i64,
    cells: &BalanceCells,
) -> Result<(), Unavailable>
    requires { IfClean (IsMaking balance_schema) S.Store conn.old }
    ensures { Writes (AddsRows balance_rows balance_tree tenant (balance_values cells.now ∷ []))
        S.Store conn.old conn.new result }
{
    done(conn.execute(INSERT_BALANCE, &balance_params(tenant, cells)))
}

/// Adds what has become of a tenant's pending transfer.
pub fn fill_status<S: Alter>(
    conn: &mut Connection<S>,
    tenant: i64,
    cells: &StatusCells,
) -> Result<(), Unavailable>
    requires { IfClean (IsMaking balance_schema) S.Store conn.old }
    ensures { Writes (AddsRows status_rows status_tree tenant (status_values cells.now ∷ []))
        S.Store conn.old conn.new result }
{
    done(conn.execute(
        INSERT_STATUS,
        params![tenant, cells.transfer.as_slice(), cells.state, cells.due],
    ))
}

/// Adds a tenant's account's balances after one of its entries.
pub fn fill_history<S: Alter>(
    conn: &mut Connection<S>,
    tenant: i64,
    cells: &HistoryCells,
) -> Result<(), Unavailable>
    requires { IfClean (IsMaking balance_schema) S.Store conn.old }
    ensures { Writes (AddsRows history_rows history_tree tenant (history_values cells.now ∷ []))
        S.Store conn.old conn.new result }
{
    done(conn.execute(
        "INSERT INTO history (tenant, account, timestamp, dp, dd, cp, cc) VALUES (?1, ?2, ?3, \
            ?4, ?5, ?6, ?7)",
        params![
            tenant,
            cells.account.as_slice(),
            cells.timestamp,
            cells.dp.as_slice(),
            cells.dd.as_slice(),
            cells.cp.as_slice(),
            cells.cc.as_slice()
        ],
    ))
}

/// Sets the version of the file to that of the balance schema.
pub fn set_balance_version<S: Alter>(conn: &mut Connection<S>) -> Result<(), Unavailable>
    requires { IfClean (IsMaking balance_schema) S.Store conn.old }
    ensures { Writes (SetsVersion (pos 2)) S.Store conn.old conn.new result }
{
    done(conn.execute("UPDATE schema SET version = 2", &[]))
}
