//! The states of a tenant's pending transfers.

ghost use Rattle.std.specs.Prelude.{[], ◌∷◌, ◌<◌, ◌^◌};
ghost use Rattle.std.specs.Option.{ForSome};
ghost use Rattle.amount.specs.Column.{column_of};
ghost use Rattle.rows.specs.Cells.{status_cells};
ghost use Rattle.rows.specs.Widths.{IsStorableStatus};
ghost use Rattle.keyed_trees.specs.Kept.{state};
ghost use Rattle.ledger_sql.specs.Calls.{LeavesWritten};
ghost use Rattle.ledger_sql.specs.Effects.{AddsRows, SetsOne};
ghost use Rattle.ledger_sql.specs.Schema.{ledger_schema, status_tree};
ghost use Rattle.ledger_sql.specs.TableRows.{has_id, status_rows, with_id};
ghost use Rattle.ledger_sql.specs.Values.{status_values};
ghost use Rattle.ledger_tables.specs.Calls.{LeavesRowFound};

use crate::ledger_trees::LedgerTrees;
use ledger_rules::laws::law_ledger_rows_fit;
use records::Unavailable;
use rows::{StatusCells, StatusRow};
use sqlite_trees::store::Store;

/// The state of a tenant's pending transfer with this id, at the tenant's clock.
pub(crate) fn find<S: Store>(
    trees: &mut LedgerTrees<S>,
    tenant: i64,
    transfer: u128,
) -> Result<Option<StatusRow>, Unavailable>
    ensures { LeavesRowFound IsStorableStatus (λ row. status_values (status_cells row))
        (λ trees. with_id (column_of transfer) (status_rows tenant trees))
        (state ledger_schema S.Store trees.old) (state ledger_schema S.Store trees.new) result }
{
    let Some(cells) = trees.find_row::<StatusCells>(tenant, transfer)? else {
        return Ok(None);
    };
    match cells.to_row() {
        Some(row) => Ok(Some(row)),
        None => Err(Unavailable::Size),
    }
}

/// Adds the state of a tenant's new pending transfer.
pub(crate) fn add<S: Store>(
    trees: &mut LedgerTrees<S>,
    tenant: i64,
    row: &StatusRow,
) -> Result<(), Unavailable>
    requires { ForSome row.now.due (λ due. due < 2 ^ 63) }
    ensures { LeavesWritten (AddsRows status_rows status_tree tenant
        (status_values (status_cells row.now) ∷ []))
        (state ledger_schema S.Store trees.old) (state ledger_schema S.Store trees.new) result }
{
    law_ledger_rows_fit();
    trees.add_row(tenant, StatusCells::from_row(row))
}

/// Sets the state of a tenant's pending transfer.
pub(crate) fn set<S: Store>(
    trees: &mut LedgerTrees<S>,
    tenant: i64,
    row: &StatusRow,
) -> Result<(), Unavailable>
    requires { ForSome row.now.due (λ due. due < 2 ^ 63) }
    ensures { LeavesWritten (SetsOne status_rows status_tree tenant
        (has_id (column_of row.now.transfer)) (status_values (status_cells row.now)))
        (state ledger_schema S.Store trees.old) (state ledger_schema S.Store trees.new) result }
{
    law_ledger_rows_fit();
    trees.set_row(tenant, row.transfer, StatusCells::from_row(row))
}
