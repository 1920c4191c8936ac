//! The ids of a tenant's transfers that failed.

ghost use Rattle.std.specs.Prelude.{◌≡◌, [], ◌∷◌};
ghost use Rattle.std.specs.List.{list_any};
ghost use Rattle.amount.specs.Column.{column_of};
ghost use Rattle.keyed_trees.specs.Kept.{state};
ghost use Rattle.ledger_sql.specs.Calls.{LeavesLearnt, LeavesWritten, OverLedger};
ghost use Rattle.ledger_sql.specs.Effects.{AddsRows};
ghost use Rattle.ledger_sql.specs.Schema.{failed_tree, ledger_schema};
ghost use Rattle.ledger_sql.specs.TableRows.{failed_rows, has_id};
ghost use Rattle.ledger_sql.specs.Values.{id_values};

use crate::ledger_trees::LedgerTrees;
use amount::Amount;
use ledger_layout::FailedCells;
use ledger_rules::laws::law_ledger_rows_fit;
use records::Unavailable;
use sqlite_trees::store::Store;

/// Whether a tenant's transfer with this id has failed.
pub(crate) fn contains<S: Store>(
    trees: &mut LedgerTrees<S>,
    tenant: i64,
    id: u128,
) -> Result<bool, Unavailable>
    ensures { LeavesLearnt OverLedger
        (λ trees failed. failed ≡ list_any (has_id (column_of id)) (failed_rows tenant trees))
        (state ledger_schema S.Store trees.old) (state ledger_schema S.Store trees.new) result }
{
    Ok(trees.find_row::<FailedCells>(tenant, id)?.is_some())
}

/// Adds the id of a tenant's transfer that failed.
pub(crate) fn add<S: Store>(
    trees: &mut LedgerTrees<S>,
    tenant: i64,
    id: u128,
) -> Result<(), Unavailable>
    ensures { LeavesWritten (AddsRows failed_rows failed_tree tenant
        (id_values (column_of id) ∷ []))
        (state ledger_schema S.Store trees.old) (state ledger_schema S.Store trees.new) result }
{
    law_ledger_rows_fit();
    let id = Amount::new(id).to_column();
    trees.add_row(tenant, FailedCells { id })
}
