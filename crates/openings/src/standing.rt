//! Where a ledger's tables stand among those of a file, and how they are made.

ghost use Rattle.std.specs.Prelude.{◌≡◌, None, IfSome};
ghost use Rattle.ledger_sql.specs.Effects.{IsLedger, StartsAs};
ghost use Rattle.ledger_sql.specs.Schema.{after_schema};
ghost use Rattle.openings.specs.Told.{LacksTables, LacksVersions, has_all, has_table};

use crate::opening::OpenFault;
use ledger_shape::{has_versions, is_ledger};
use sqlite_schema::names::same_name;
use sqlite_schema::schema::{Schema, Table};

/// Why a file cannot be asked for its version: the table of it is not there, or not the first, or
/// made in another way.
pub(crate) fn version_refusal(schema: &Schema) -> Option<OpenFault>
    ensures starts { result ≡ None → StartsAs after_schema.tables schema.now }
    ensures lacks { IfSome result (λ fault. LacksVersions fault schema.now) }
{
    if !has_table(b"schema", schema.tables.as_slice()) {
        return Some(OpenFault::NotALedger);
    }
    if !has_versions(schema) {
        return Some(OpenFault::Unreadable);
    }
    None
}

/// Why a file of the current version cannot be read: a ledger's table is missing, or they are not
/// the first, or made in another way, or another refers to one of them.
pub(crate) fn standing_refusal(schema: &Schema) -> Option<OpenFault>
    ensures ledger { result ≡ None → IsLedger schema.now }
    ensures lacks { IfSome result (λ fault. LacksTables fault schema.now) }
{
    if !has_all(schema.tables.as_slice()) {
        return Some(OpenFault::NotALedger);
    }
    if !is_ledger(schema) {
        return Some(OpenFault::Unreadable);
    }
    None
}

fn has_all(tables: &[Table]) -> bool
    ensures { result ≡ has_all tables.now }
{
    has_table(b"schema", tables)
        && has_table(b"tenant", tables)
        && has_table(b"clock", tables)
        && has_table(b"account", tables)
        && has_table(b"transfer", tables)
        && has_table(b"balance", tables)
        && has_table(b"status", tables)
        && has_table(b"history", tables)
        && has_table(b"failed", tables)
}

fn has_table(name: &[u8], tables: &[Table]) -> bool
    ensures { result ≡ has_table name.now tables.now }
{
    tables
        .iter()
        .any(|table| same_name(name, table.name.as_slice()))
}
