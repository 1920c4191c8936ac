//! What a table refers to, against its form.

ghost use Rattle.std.specs.Prelude.{◌≡◌, ◌↔◌, ◌∷◌, [], codes, IsTrue};
ghost use Rattle.ledger_sql.specs.Schema.{to_tenant};
ghost use Rattle.ledger_shape.specs.Forms.{references_for};

use sqlite_schema::schema::{Action, Reference};
use sqlite_value::value::Bytes;

/// Whether a table refers to the directory by the column at this place, or to nothing.
pub(crate) fn fit_references(tenant: Option<usize>, references: &[Reference]) -> bool
    ensures { IsTrue result ↔ (references.now ≡ references_for tenant) }
{
    match (tenant, references) {
        (None, []) => true,
        (Some(place), [reference]) => is_to_tenant(reference, place),
        _ => false,
    }
}

fn is_to_tenant(reference: &Reference, place: usize) -> bool
    ensures { IsTrue result ↔ (reference.now ≡ to_tenant place) }
{
    reference.columns.as_slice() == [place].as_slice()
        && reference.parent.as_slice() == b"tenant".as_slice()
        && are_numbers(reference.parent_columns.as_slice())
        && reference.on_delete == Action::NoAction
        && reference.on_update == Action::NoAction
        && !reference.is_deferred
}

/// Whether the columns are the number of a tenant, alone.
fn are_numbers(columns: &[Bytes]) -> bool
    ensures { IsTrue result ↔ (columns.now ≡ codes "no" ∷ []) }
{
    match columns {
        [column] => is_number(column),
        _ => false,
    }
}

fn is_number(column: &Bytes) -> bool
    ensures { IsTrue result ↔ (column.now ≡ codes "no") }
{
    column.as_slice() == b"no".as_slice()
}
