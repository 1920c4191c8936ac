//! Which of a ledger's tables stand in a file of an older version, by name.

ghost use Rattle.std.specs.Prelude.{◌≡◌};
ghost use Rattle.ledger_sql.specs.Schema.{list_schema, balance_schema};
ghost use Rattle.migrate.specs.Naming.{has_table, names_other};

use sqlite_schema::names::same_name;
use sqlite_schema::schema::{Schema, Table};

/// Whether a table of version 1 is missing, or one that only newer versions have is there.
pub(crate) fn names_no_lists(schema: &Schema) -> bool
    ensures { result ≡ names_other list_schema schema.now }
{
    let tables = schema.tables.as_slice();
    !has_table(tables, b"schema")
        || !has_table(tables, b"tenant")
        || !has_table(tables, b"clock")
        || !has_table(tables, b"account")
        || !has_table(tables, b"transfer")
        || has_table(tables, b"balance")
        || has_table(tables, b"status")
        || has_table(tables, b"history")
        || has_table(tables, b"failed")
}

/// Whether a table of version 2 is missing, or one that only newer versions have is there.
pub(crate) fn names_no_balances(schema: &Schema) -> bool
    ensures { result ≡ names_other balance_schema schema.now }
{
    let tables = schema.tables.as_slice();
    !has_table(tables, b"schema")
        || !has_table(tables, b"tenant")
        || !has_table(tables, b"clock")
        || !has_table(tables, b"account")
        || !has_table(tables, b"transfer")
        || !has_table(tables, b"balance")
        || !has_table(tables, b"status")
        || !has_table(tables, b"history")
        || has_table(tables, b"failed")
}

fn has_table(tables: &[Table], name: &[u8]) -> bool
    ensures { result ≡ has_table tables.now name.now }
{
    tables
        .iter()
        .any(|table| same_name(name, table.name.as_slice()))
}
