//! A table and an index against their forms.

ghost use Rattle.std.specs.Prelude.{◌≡◌, ◌↔◌, [], IsTrue};

use crate::checks::fit_checks;
use crate::fits::{Form, fit_all};
use crate::forms::{IndexForm, TableForm};
use crate::keys::are_plain;
use crate::references::fit_references;
use sqlite_schema::schema::{Index, Stamps, Table};
use sqlite_value::keys::Order;

impl Form for TableForm<'_> {
    ghost use Rattle.ledger_shape.specs.Forms.{table_for};

    type Item = Table;

    ghost meant = { table_for };

    fn fits(&self, item: &Table) -> bool {
        item.name.as_slice() == self.name
            && item.tree == self.tree
            && fit_all(self.columns, item.columns.as_slice())
            && item.key == self.key
            && item.primary.as_slice() == self.primary
            && fit_all(self.uniques, item.uniques.as_slice())
            && are_plain(item.orders.as_slice(), self.uniques.len())
            && fit_checks(self.checks, &item.checks)
            && fit_references(self.tenant, item.references.as_slice())
            && item.computed.is_empty()
            && are_none(&item.stamps)
            && !item.is_counted
    }
}

/// Whether no default reads the time.
fn are_none(stamps: &Stamps) -> bool
    ensures { IsTrue result ↔ (stamps.now ≡ record { places = []; terms = []; formats = [] }) }
{
    stamps.places.is_empty() && fit_checks(&[], &stamps.terms) && stamps.formats.is_empty()
}

impl Form for IndexForm<'_> {
    ghost use Rattle.ledger_shape.specs.Forms.{index_for};

    type Item = Index;

    ghost meant = { index_for };

    fn fits(&self, item: &Index) -> bool {
        item.name.as_slice() == self.name
            && item.tree == self.tree
            && item.table == self.table
            && item.columns.as_slice() == self.columns
            && item.order == Order::PLAIN
            && item.is_unique
    }
}
