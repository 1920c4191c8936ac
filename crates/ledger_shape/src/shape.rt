//! A file's schema against those of a ledger.

ghost use Rattle.std.specs.Prelude.{◌≡◌, ◌↔◌, [], map, IsTrue};
ghost use Rattle.ledger_sql.specs.Schema.{after_schema, list_schema, balance_schema};
ghost use Rattle.ledger_sql.specs.Effects.{IsLedger, StartsAs};
ghost use Rattle.ledger_shape.specs.Forms.{table_for, index_for};
ghost use Rattle.ledger_shape.specs.Starts.{Starts};

use crate::fits::fit_all;
use crate::forms::{IndexForm, TableForm};
use crate::ledger::{
    BALANCE_INDEXES, BALANCE_TABLES, INDEXES, LIST_INDEXES, LIST_TABLES, TABLES, VERSION_TABLES,
};
use crate::strangers::are_strangers;
use sqlite_schema::schema::{Schema, Table};

/// Whether the tables are first those of the current version, and behind them none but strangers'.
pub fn is_ledger(schema: &Schema) -> bool
    ensures { IsTrue result ↔ IsLedger schema.now }
{
    let tables = schema.tables.as_slice();
    start_as(&TABLES, tables) && are_strangers(&tables[TABLES.len()..])
}

/// Whether the first table is that of the version, which each version has.
pub fn has_versions(schema: &Schema) -> bool
    ensures { IsTrue result ↔ StartsAs after_schema.tables schema.now }
{
    start_as(&TABLES[..VERSION_TABLES], schema.tables.as_slice())
}

/// Whether the tables are first those of version 1, the list schema.
pub fn has_lists(schema: &Schema) -> bool
    ensures { IsTrue result ↔ StartsAs list_schema.tables schema.now }
{
    start_as(&TABLES[..LIST_TABLES], schema.tables.as_slice())
}

/// Whether the tables are first those of version 2, the balance schema.
pub fn has_balances(schema: &Schema) -> bool
    ensures { IsTrue result ↔ StartsAs balance_schema.tables schema.now }
{
    start_as(&TABLES[..BALANCE_TABLES], schema.tables.as_slice())
}

/// Whether the schema is that of version 1, with no table, index or view more.
pub fn is_lists(schema: &Schema) -> bool
    ensures { IsTrue result ↔ (schema.now ≡ list_schema) }
{
    is_exactly(&TABLES[..LIST_TABLES], &INDEXES[..LIST_INDEXES], schema)
}

/// Whether the schema is that of version 2, with no table, index or view more.
pub fn is_balances(schema: &Schema) -> bool
    ensures { IsTrue result ↔ (schema.now ≡ balance_schema) }
{
    is_exactly(
        &TABLES[..BALANCE_TABLES],
        &INDEXES[..BALANCE_INDEXES],
        schema,
    )
}

fn is_exactly(tables: &[TableForm<'_>], indexes: &[IndexForm<'_>], schema: &Schema) -> bool
    ensures { IsTrue result ↔ (schema.now ≡ record {
      tables = map table_for tables.now;
      indexes = map index_for indexes.now;
      views = [];
    }) }
{
    fit_all(tables, schema.tables.as_slice())
        && fit_all(indexes, schema.indexes.as_slice())
        && schema.views.is_empty()
}

/// Whether the tables are first what the forms say.
fn start_as(forms: &[TableForm<'_>], tables: &[Table]) -> bool
    ensures { IsTrue result ↔ Starts (map table_for forms.now) tables.now }
{
    forms.len() <= tables.len() && fit_all(forms, &tables[..forms.len()])
}
