//! The tables of a new file, made in this order inside a transaction.

ghost use Rattle.std.specs.Prelude.{drop};
ghost use Rattle.ledger_sql.specs.Calls.{Changes, IfClean, Writes};
ghost use Rattle.ledger_sql.specs.Creating.{IsMaking, Makes, MakesTables, MakesLedger};
ghost use Rattle.ledger_sql.specs.Schema.{no_schema, after_schema, after_tenant, after_clock, after_account, list_schema, after_balance, after_status, balance_schema, schema_table, tenant_table, clock_table, account_table, transfer_table, balance_table, status_table, history_table, failed_table};

use crate::adding::add_version;
use crate::cause::done;
use records::Unavailable;
use sqlite::{Alter, Connection};

/// Makes the table of the version.
pub fn make_schema<S: Alter>(conn: &mut Connection<S>) -> Result<(), Unavailable>
    requires { IfClean (IsMaking no_schema) S.Store conn.old }
    ensures { Writes (Makes no_schema schema_table) S.Store conn.old conn.new result }
{
    done(conn.execute(
        "CREATE TABLE schema (one INTEGER PRIMARY KEY NOT NULL CHECK (one = 1), version INTEGER \
            NOT NULL) STRICT",
        &[],
    ))
}

/// Makes the table of the directory.
pub fn make_tenant<S: Alter>(conn: &mut Connection<S>) -> Result<(), Unavailable>
    requires { IfClean (IsMaking after_schema) S.Store conn.old }
    ensures { Writes (Makes after_schema tenant_table) S.Store conn.old conn.new result }
{
    done(conn.execute(
        "CREATE TABLE tenant (no INTEGER PRIMARY KEY NOT NULL, name TEXT NOT NULL UNIQUE, digest \
            BLOB NOT NULL UNIQUE CHECK (length(digest) = 32)) STRICT",
        &[],
    ))
}

/// Makes the table of the clocks.
pub fn make_clock<S: Alter>(conn: &mut Connection<S>) -> Result<(), Unavailable>
    requires { IfClean (IsMaking after_tenant) S.Store conn.old }
    ensures { Writes (Makes after_tenant clock_table) S.Store conn.old conn.new result }
{
    done(conn.execute(
        "CREATE TABLE clock (tenant INTEGER PRIMARY KEY NOT NULL REFERENCES tenant (no), clock \
            INTEGER NOT NULL) STRICT",
        &[],
    ))
}

/// Makes the table of accounts.
pub fn make_account<S: Alter>(conn: &mut Connection<S>) -> Result<(), Unavailable>
    requires { IfClean (IsMaking after_clock) S.Store conn.old }
    ensures { Writes (Makes after_clock account_table) S.Store conn.old conn.new result }
{
    done(conn.execute(
        "CREATE TABLE account (tenant INTEGER NOT NULL REFERENCES tenant (no), id BLOB NOT NULL \
            CHECK (length(id) = 16), user_data_128 BLOB NOT NULL CHECK (length(user_data_128) = \
            16), user_data_64 BLOB NOT NULL CHECK (length(user_data_64) = 8), user_data_32 \
            INTEGER NOT NULL, ledger INTEGER NOT NULL, code INTEGER NOT NULL, flags INTEGER NOT \
            NULL, timestamp INTEGER NOT NULL, PRIMARY KEY (tenant, id), UNIQUE (tenant, \
            timestamp)) STRICT",
        &[],
    ))
}

/// Makes the table of transfers.
pub fn make_transfer<S: Alter>(conn: &mut Connection<S>) -> Result<(), Unavailable>
    requires { IfClean (IsMaking after_account) S.Store conn.old }
    ensures { Writes (Makes after_account transfer_table) S.Store conn.old conn.new result }
{
    done(conn.execute(
        "CREATE TABLE transfer (tenant INTEGER NOT NULL REFERENCES tenant (no), id BLOB NOT NULL \
            CHECK (length(id) = 16), debit BLOB NOT NULL CHECK (length(debit) = 16), credit BLOB \
            NOT NULL CHECK (length(credit) = 16), amount BLOB NOT NULL CHECK (length(amount) = \
            16), pending_id BLOB NOT NULL CHECK (length(pending_id) = 16), user_data_128 BLOB \
            NOT NULL CHECK (length(user_data_128) = 16), user_data_64 BLOB NOT NULL CHECK \
            (length(user_data_64) = 8), user_data_32 INTEGER NOT NULL, timeout INTEGER NOT NULL, \
            ledger INTEGER NOT NULL, code INTEGER NOT NULL, flags INTEGER NOT NULL, timestamp \
            INTEGER NOT NULL, at_clock INTEGER NOT NULL, PRIMARY KEY (tenant, id), UNIQUE \
            (tenant, timestamp)) STRICT",
        &[],
    ))
}

/// Makes the table of balances.
pub fn make_balance<S: Alter>(conn: &mut Connection<S>) -> Result<(), Unavailable>
    requires { IfClean (IsMaking list_schema) S.Store conn.old }
    ensures { Writes (Makes list_schema balance_table) S.Store conn.old conn.new result }
{
    done(conn.execute(
        "CREATE TABLE balance (tenant INTEGER NOT NULL REFERENCES tenant (no), account BLOB NOT \
            NULL CHECK (length(account) = 16), dp BLOB NOT NULL CHECK (length(dp) = 16), dd BLOB \
            NOT NULL CHECK (length(dd) = 16), cp BLOB NOT NULL CHECK (length(cp) = 16), cc BLOB \
            NOT NULL CHECK (length(cc) = 16), PRIMARY KEY (tenant, account)) STRICT",
        &[],
    ))
}

/// Makes the table of the states of pending transfers.
pub fn make_status<S: Alter>(conn: &mut Connection<S>) -> Result<(), Unavailable>
    requires { IfClean (IsMaking after_balance) S.Store conn.old }
    ensures { Writes (Makes after_balance status_table) S.Store conn.old conn.new result }
{
    done(conn.execute(
        "CREATE TABLE status (tenant INTEGER NOT NULL REFERENCES tenant (no), transfer BLOB NOT \
            NULL CHECK (length(transfer) = 16), state INTEGER NOT NULL, due INTEGER NOT NULL, \
            PRIMARY KEY (tenant, transfer)) STRICT",
        &[],
    ))
}

/// Makes the table of the balances after each transfer.
pub fn make_history<S: Alter>(conn: &mut Connection<S>) -> Result<(), Unavailable>
    requires { IfClean (IsMaking after_status) S.Store conn.old }
    ensures { Writes (Makes after_status history_table) S.Store conn.old conn.new result }
{
    done(conn.execute(
        "CREATE TABLE history (tenant INTEGER NOT NULL REFERENCES tenant (no), account BLOB NOT \
            NULL CHECK (length(account) = 16), timestamp INTEGER NOT NULL, dp BLOB NOT NULL \
            CHECK (length(dp) = 16), dd BLOB NOT NULL CHECK (length(dd) = 16), cp BLOB NOT NULL \
            CHECK (length(cp) = 16), cc BLOB NOT NULL CHECK (length(cc) = 16), PRIMARY KEY \
            (tenant, account, timestamp)) STRICT",
        &[],
    ))
}

/// Makes the table of the ids of failed transfers.
pub fn make_failed<S: Alter>(conn: &mut Connection<S>) -> Result<(), Unavailable>
    requires { IfClean (IsMaking balance_schema) S.Store conn.old }
    ensures { Writes (Makes balance_schema failed_table) S.Store conn.old conn.new result }
{
    done(conn.execute(
        "CREATE TABLE failed (tenant INTEGER NOT NULL REFERENCES tenant (no), id BLOB NOT NULL \
            CHECK (length(id) = 16), PRIMARY KEY (tenant, id)) STRICT",
        &[],
    ))
}

/// Makes the tables of the list schema.
fn make_list_tables<S: Alter>(conn: &mut Connection<S>) -> Result<(), Unavailable>
    requires { IfClean (IsMaking no_schema) S.Store conn.old }
    ensures { Changes (MakesTables no_schema list_schema list_schema.tables)
        S.Store conn.old conn.new result }
{
    make_schema(conn)?;
    make_tenant(conn)?;
    make_clock(conn)?;
    make_account(conn)?;
    make_transfer(conn)
}

/// Makes the tables that the balance schema has more than the list schema.
pub fn make_balance_tables<S: Alter>(conn: &mut Connection<S>) -> Result<(), Unavailable>
    requires { IfClean (IsMaking list_schema) S.Store conn.old }
    ensures { Changes (MakesTables list_schema balance_schema (drop 5 balance_schema.tables))
        S.Store conn.old conn.new result }
{
    make_balance(conn)?;
    make_status(conn)?;
    make_history(conn)
}

/// Makes all tables of the current schema and writes its version: the whole empty ledger, to be
/// committed. Where it is refused, what was made so far stands in the transaction, to be undone.
pub fn make_tables<S: Alter>(conn: &mut Connection<S>) -> Result<(), Unavailable>
    requires { IfClean (IsMaking no_schema) S.Store conn.old }
    ensures { Changes MakesLedger S.Store conn.old conn.new result }
{
    make_list_tables(conn)?;
    make_balance_tables(conn)?;
    make_failed(conn)?;
    add_version(conn)
}
