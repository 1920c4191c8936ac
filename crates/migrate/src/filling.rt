//! The tables that newer versions of the schema have more, made and filled inside a transaction.

ghost use Rattle.ledger_sql.specs.Calls.{Changes, IfClean};
ghost use Rattle.ledger_sql.specs.Schema.{list_schema, balance_schema};
ghost use Rattle.migrate.specs.Filling.{IsAltering, CanSetVersion, FillsDerived, MakesDerived, MakesBalanced, MakesCurrent, MakesVersion};

use ledger_sql::creating::{make_balance_tables, make_failed};
use ledger_sql::setting::set_version;
use ledger_sql::upgrading::{fill_balance, fill_history, fill_status, set_balance_version};
use openings::versions::CURRENT_VERSION;
use records::Unavailable;
use rows::{
    AllRows, BalanceCells, DirectoryRow, HistoryCells, StatusCells, TenantOfDigest, TenantRows,
};
use sqlite::{Alter, Connection};

/// Makes the tables of balances, states and history, and puts these rows into them.
pub(crate) fn make_derived<S: Alter>(
    conn: &mut Connection<S>,
    rows: &AllRows,
) -> Result<(), Unavailable>
    requires { IfClean (IsAltering list_schema) S.Store conn.old }
    ensures { Changes MakesDerived S.Store conn.old conn.new result }
{
    make_balance_tables(conn)?;
    fill_all(conn, &rows.directory, &rows.tenants)
}

/// Each tenant's rows, under the number at its place in the directory.
fn fill_all<S: Alter>(
    conn: &mut Connection<S>,
    directory: &[DirectoryRow],
    tenants: &[TenantOfDigest],
) -> Result<(), Unavailable>
    requires { IfClean (IsAltering balance_schema) S.Store conn.old }
    ensures { Changes FillsDerived S.Store conn.old conn.new result }
{
    for (row, tenant) in directory.iter().zip(tenants) {
        fill_tenant(conn, row.number, &tenant.rows)?;
    }
    Ok(())
}

fn fill_tenant<S: Alter>(
    conn: &mut Connection<S>,
    number: i64,
    rows: &TenantRows,
) -> Result<(), Unavailable>
    requires { IfClean (IsAltering balance_schema) S.Store conn.old }
    ensures { Changes FillsDerived S.Store conn.old conn.new result }
{
    fill_rows(conn, number, rows.balances.as_slice())?;
    fill_rows(conn, number, rows.statuses.as_slice())?;
    fill_rows(conn, number, rows.history.as_slice())
}

/// A tenant's rows of one kind.
fn fill_rows<S: Alter, R: Filling>(
    conn: &mut Connection<S>,
    number: i64,
    rows: &[R],
) -> Result<(), Unavailable>
    requires { IfClean (IsAltering balance_schema) S.Store conn.old }
    ensures { Changes FillsDerived S.Store conn.old conn.new result }
{
    for row in rows {
        row.fill(conn, number)?;
    }
    Ok(())
}

/// A row of one of the three tables.
trait Filling {
    /// Puts it into its table, as a row of the tenant with this number.
    fn fill<S: Alter>(&self, conn: &mut Connection<S>, number: i64) -> Result<(), Unavailable>
        requires { IfClean (IsAltering balance_schema) S.Store conn.old }
        ensures { Changes FillsDerived S.Store conn.old conn.new result };
}

impl Filling for BalanceCells {
    fn fill<S: Alter>(&self, conn: &mut Connection<S>, number: i64) -> Result<(), Unavailable> {
        fill_balance(conn, number, self)
    }
}

impl Filling for StatusCells {
    fn fill<S: Alter>(&self, conn: &mut Connection<S>, number: i64) -> Result<(), Unavailable> {
        fill_status(conn, number, self)
    }
}

impl Filling for HistoryCells {
    fn fill<S: Alter>(&self, conn: &mut Connection<S>, number: i64) -> Result<(), Unavailable> {
        fill_history(conn, number, self)
    }
}

/// Sets the version, and makes the table of failed ids where that version has it.
pub(crate) fn make_version<S: Alter>(conn: &mut Connection<S>, to: u32) -> Result<(), Unavailable>
    requires { IfClean CanSetVersion S.Store conn.old }
    ensures { Changes (MakesVersion to) S.Store conn.old conn.new result }
{
    if to < CURRENT_VERSION {
        return make_balanced(conn);
    }
    make_current(conn)
}

/// Makes the table of failed ids, and sets the current version.
fn make_current<S: Alter>(conn: &mut Connection<S>) -> Result<(), Unavailable>
    requires { IfClean CanSetVersion S.Store conn.old }
    ensures { Changes MakesCurrent S.Store conn.old conn.new result }
{
    make_failed(conn)?;
    set_version(conn)
}

/// Sets the version of the balance schema.
fn make_balanced<S: Alter>(conn: &mut Connection<S>) -> Result<(), Unavailable>
    requires { IfClean CanSetVersion S.Store conn.old }
    ensures { Changes MakesBalanced S.Store conn.old conn.new result }
{
    set_balance_version(conn)
}
