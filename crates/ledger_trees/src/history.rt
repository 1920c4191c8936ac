//! The history of a tenant's accounts.

ghost use Rattle.std.specs.Prelude.{[], ◌∷◌, ◌<◌, ◌^◌};
ghost use Rattle.rows.specs.Cells.{history_cells};
ghost use Rattle.keyed_trees.specs.Kept.{state};
ghost use Rattle.ledger_sql.specs.Calls.{LeavesWritten};
ghost use Rattle.ledger_sql.specs.Effects.{AddsRows};
ghost use Rattle.ledger_sql.specs.Schema.{history_tree, ledger_schema};
ghost use Rattle.ledger_sql.specs.TableRows.{history_rows};
ghost use Rattle.ledger_sql.specs.Values.{history_values};

use crate::ledger_trees::LedgerTrees;
use ledger_rules::laws::law_ledger_rows_fit;
use records::Unavailable;
use rows::{HistoryCells, HistoryRow};
use sqlite_trees::store::Store;

/// Adds the balances of a tenant's transfer's two accounts as it leaves them.
pub(crate) fn add<S: Store>(
    trees: &mut LedgerTrees<S>,
    tenant: i64,
    debit: &HistoryRow,
    credit: &HistoryRow,
) -> Result<(), Unavailable>
    requires debit { debit.now.timestamp < 2 ^ 63 }
    requires credit { credit.now.timestamp < 2 ^ 63 }
    ensures { LeavesWritten (AddsRows history_rows history_tree tenant
        (history_values (history_cells debit.now) ∷
        history_values (history_cells credit.now) ∷ []))
        (state ledger_schema S.Store trees.old) (state ledger_schema S.Store trees.new) result }
{
    law_ledger_rows_fit();
    trees.add_row(tenant, HistoryCells::from_row(debit))?;
    if let Err(error) = trees.add_row(tenant, HistoryCells::from_row(credit)) {
        // The first row is not left without the second.
        trees.tables.rollback();
        return Err(error);
    }
    Ok(())
}
