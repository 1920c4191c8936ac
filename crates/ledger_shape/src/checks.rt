//! The checks of a table against their forms.

ghost use Rattle.std.specs.Prelude.{◌≡◌, ◌↔◌, map, IsTrue};
ghost use Rattle.sqlite_value.specs.declared.value.Value.TheVariants as value;
ghost use Rattle.sqlite_sql.specs.Term.{lit, col, op1};
ghost use Rattle.sqlite_sql.specs.declared.ops.UnaryOp.TheVariants as unary;
ghost use Rattle.sqlite_schema.specs.Code.{term_to, terms_in};
ghost use Rattle.ledger_shape.specs.Forms.{check_for};

use crate::forms::CheckForm;
use sqlite_schema::code::{Op, Terms};
use sqlite_sql::ops::{BinaryOp, CompareOp, UnaryOp};
use sqlite_value::keys::Collation;
use sqlite_value::value::Value;

/// Whether the checks are what the forms say, one for one.
pub(crate) fn fit_checks(forms: &[CheckForm], checks: &Terms) -> bool
    ensures { IsTrue result ↔ (checks.now ≡ map check_for forms.now) }
{
    fit_roots(forms, checks.nodes.as_slice(), checks.roots.as_slice())
}

/// The same, of terms by their roots among some nodes.
fn fit_roots(forms: &[CheckForm], nodes: &[Op], roots: &[usize]) -> bool
    ensures { IsTrue result ↔ (terms_in nodes.now roots.now ≡ map check_for forms.now) }
{
    if forms.len() != roots.len() {
        return false;
    }
    for (form, root) in forms.iter().zip(roots) {
        if !is_check(form, nodes, nodes.len(), *root) {
            return false;
        }
    }
    true
}

/// Whether the term at a place, read to a depth, is the check.
fn is_check(form: &CheckForm, nodes: &[Op], depth: usize, at: usize) -> bool
    ensures { IsTrue result ↔ (term_to nodes.now depth at ≡ check_for form.now) }
{
    if depth == 0 {
        return false;
    }
    let equal = BinaryOp::Compare(CompareOp::Eq, Collation::Binary);
    match nodes.get(at) {
        Some(Op::Binary(op, a, b)) if *op == equal => match form {
            CheckForm::Equals(place, number) => {
                is_column(nodes, depth - 1, *a, *place) && is_number(nodes, depth - 1, *b, *number)
            }
            CheckForm::Length(place, bytes) => {
                is_length(nodes, depth - 1, *a, *place) && is_number(nodes, depth - 1, *b, *bytes)
            }
        },
        _ => false,
    }
}

/// Whether a term is the length of the column at a place of the row.
fn is_length(nodes: &[Op], depth: usize, at: usize, place: usize) -> bool
    ensures { IsTrue result ↔ (term_to nodes.now depth at ≡ op1 unary.Length (col 1 place)) }
{
    if depth == 0 {
        return false;
    }
    match nodes.get(at) {
        Some(Op::Unary(op, a)) => {
            *op == UnaryOp::Length && is_column(nodes, depth - 1, *a, place)
        }
        _ => false,
    }
}

/// Whether a term is the column at a place of the row.
fn is_column(nodes: &[Op], depth: usize, at: usize, place: usize) -> bool
    ensures { IsTrue result ↔ (term_to nodes.now depth at ≡ col 1 place) }
{
    if depth == 0 {
        return false;
    }
    match nodes.get(at) {
        Some(Op::Column(slot, column)) => *slot == 1 && *column == place,
        _ => false,
    }
}

/// Whether a term is this number.
fn is_number(nodes: &[Op], depth: usize, at: usize, number: i64) -> bool
    ensures { IsTrue result ↔ (term_to nodes.now depth at ≡ lit (value.Int number)) }
{
    if depth == 0 {
        return false;
    }
    match nodes.get(at) {
        Some(Op::Literal(Value::Int(n))) => *n == number,
        _ => false,
    }
}
