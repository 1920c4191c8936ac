//! A row's cells as the parameters of a text, behind the number of its tenant.

ghost use Rattle.std.specs.Prelude.{◌≡◌, ◌∷◌};
ghost use Rattle.sqlite_value.specs.declared.value.Value.TheVariants.{Int};
ghost use Rattle.sqlite.specs.Values.{bound};
ghost use Rattle.ledger_sql.specs.Values.{balance_values};

use rows::BalanceCells;
use sqlite::types::ValueRef;

/// Those of the balances of an account.
pub(crate) fn balance_params(tenant: i64, cells: &BalanceCells) -> [ValueRef<'_>; 6]
    ensures { bound result ≡ Int tenant ∷ balance_values cells.now }
{
    [
        ValueRef::Int(tenant),
        ValueRef::Blob(&cells.account),
        ValueRef::Blob(&cells.dp),
        ValueRef::Blob(&cells.dd),
        ValueRef::Blob(&cells.cp),
        ValueRef::Blob(&cells.cc),
    ]
}
