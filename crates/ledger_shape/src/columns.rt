//! A column against its form.

ghost use Rattle.std.specs.Prelude.{◌≡◌, ◌↔◌, IsTrue};
ghost use Rattle.ledger_sql.specs.Schema.{column_of};

use crate::fits::Form;
use crate::forms::ColumnForm;
use sqlite_schema::schema::{Column, Kind};
use sqlite_value::keys::Collation;
use sqlite_value::value::Value;

impl Form for ColumnForm<'_> {
    ghost use Rattle.ledger_shape.specs.Forms.{column_for};

    type Item = Column;

    ghost meant = { column_for };

    fn fits(&self, item: &Column) -> bool {
        match self {
            ColumnForm::Whole(name) => is_column(item, name, Kind::Integer),
            ColumnForm::Bytes(name) => is_column(item, name, Kind::Blob),
            ColumnForm::Words(name) => is_column(item, name, Kind::Text),
        }
    }
}

fn is_column(column: &Column, name: &[u8], kind: Kind) -> bool
    ensures { IsTrue result ↔ (column.now ≡ column_of name.now kind) }
{
    column.name.as_slice() == name
        && column.kind == kind
        && column.is_strict
        && column.not_null
        && matches!(column.default, Value::Null)
        && column.collation == Collation::Binary
}
