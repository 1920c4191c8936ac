//! The tables behind a ledger's.

ghost use Rattle.std.specs.Prelude.{◌≡◌, ◌==◌};
ghost use Rattle.std.specs.List.{list_any, list_all};
ghost use Rattle.sqlite_schema.specs.Names.{same_name};
ghost use Rattle.ledger_shape.specs.Strangers.{is_apart, has_own_tree, refers_elsewhere};

use crate::forms::TableForm;
use crate::ledger::TABLES;
use sqlite_schema::names::same_name;
use sqlite_schema::schema::{Reference, Table};

/// Whether each table has a tree of its own, and refers to none of a ledger's.
pub(crate) fn are_strangers(tables: &[Table]) -> bool
    ensures { result ≡ list_all is_apart tables.now }
{
    tables.iter().all(is_apart)
}

fn is_apart(table: &Table) -> bool
    ensures { result ≡ is_apart table.now }
{
    has_own_tree(table) && refer_elsewhere(table.references.as_slice())
}

fn has_own_tree(table: &Table) -> bool
    ensures { result ≡ has_own_tree table.now }
{
    !has_tree(&TABLES, table.tree)
}

fn refer_elsewhere(references: &[Reference]) -> bool
    ensures { result ≡ list_all refers_elsewhere references.now }
{
    references.iter().all(refers_elsewhere)
}

fn refers_elsewhere(reference: &Reference) -> bool
    ensures { result ≡ refers_elsewhere reference.now }
{
    !has_name(&TABLES, reference.parent.as_slice())
}

fn has_tree(forms: &[TableForm<'_>], tree: u32) -> bool
    ensures { result ≡ list_any (λ form. form.tree == tree) forms.now }
{
    forms.iter().any(|form| form.tree == tree)
}

/// Whether a table has this name, but for the case of its letters.
fn has_name(forms: &[TableForm<'_>], name: &[u8]) -> bool
    ensures { result ≡ list_any (λ form. same_name form.name.now name.now) forms.now }
{
    forms.iter().any(|form| same_name(form.name, name))
}
