//! What stands in a file that is to become a ledger.

ghost use Rattle.std.specs.Prelude.{◌≡◌, ◌↔◌, None, Some, IfSome, IsTrue};
ghost use Rattle.ledger_sql.specs.Schema.{no_schema};
ghost use Rattle.openings.specs.Shape.{has_ours, is_ours};
ghost use Rattle.openings.specs.Told.{HindersMaking};
ghost use Rattle.openings.specs.declared.opening.OpenFault.TheVariants.{NotALedger};

use crate::opening::OpenFault;
use sqlite_schema::names::same_name;
use sqlite_schema::schema::Schema;

/// Why no ledger can be made in a file with this schema.
pub(crate) fn refusal(schema: &Schema) -> Option<OpenFault>
    ensures blank { result ≡ None → schema.now ≡ no_schema }
    ensures ours { (result ≡ Some NotALedger) ↔ IsTrue (has_ours schema.now) }
    ensures hinders { IfSome result (λ fault. HindersMaking fault schema.now) }
{
    if has_ours(schema) {
        return Some(OpenFault::NotALedger);
    }
    if schema.tables.is_empty() && schema.indexes.is_empty() && schema.views.is_empty() {
        return None;
    }
    Some(OpenFault::Unreadable)
}

/// Whether a table has the name of one of a ledger's.
fn has_ours(schema: &Schema) -> bool
    ensures { result ≡ has_ours schema.now }
{
    let tables = schema.tables.as_slice();
    tables.iter().any(|table| is_ours(table.name.as_slice()))
}

/// Whether a ledger has a table of this name.
pub(crate) fn is_ours(name: &[u8]) -> bool
    ensures { result ≡ is_ours name.now }
{
    same_name(b"schema", name)
        || same_name(b"tenant", name)
        || same_name(b"clock", name)
        || same_name(b"account", name)
        || same_name(b"transfer", name)
        || same_name(b"balance", name)
        || same_name(b"status", name)
        || same_name(b"history", name)
        || same_name(b"failed", name)
}
