//! A tenant's transfers.

ghost use Rattle.std.specs.Prelude.{[], ◌∷◌, ◌<◌, ◌^◌};
ghost use Rattle.amount.specs.Column.{column_of};
ghost use Rattle.rows.specs.Cells.{transfer_cells};
ghost use Rattle.rows.specs.Widths.{IsStorableTransfer};
ghost use Rattle.keyed_trees.specs.Kept.{state};
ghost use Rattle.ledger_sql.specs.Calls.{LeavesWritten};
ghost use Rattle.ledger_sql.specs.Effects.{AddsRows};
ghost use Rattle.ledger_sql.specs.Schema.{ledger_schema, transfer_tree};
ghost use Rattle.ledger_sql.specs.TableRows.{transfer_rows, with_id};
ghost use Rattle.ledger_sql.specs.Values.{transfer_values};
ghost use Rattle.ledger_tables.specs.Calls.{LeavesRowFound};

use crate::ledger_trees::LedgerTrees;
use ledger_rules::laws::law_ledger_rows_fit;
use records::{Transfer, Unavailable};
use rows::TransferCells;
use sqlite_trees::store::Store;

/// A tenant's transfer with this id.
pub(crate) fn find<S: Store>(
    trees: &mut LedgerTrees<S>,
    tenant: i64,
    id: u128,
) -> Result<Option<Transfer>, Unavailable>
    ensures { LeavesRowFound IsStorableTransfer (λ row. transfer_values (transfer_cells row))
        (λ trees. with_id (column_of id) (transfer_rows tenant trees))
        (state ledger_schema S.Store trees.old) (state ledger_schema S.Store trees.new) result }
{
    let Some(cells) = trees.find_row::<TransferCells>(tenant, id)? else {
        return Ok(None);
    };
    match cells.to_transfer() {
        Some(transfer) => Ok(Some(transfer)),
        None => Err(Unavailable::Size),
    }
}

/// Adds a transfer to a tenant's.
pub(crate) fn add<S: Store>(
    trees: &mut LedgerTrees<S>,
    tenant: i64,
    transfer: &Transfer,
) -> Result<(), Unavailable>
    requires timestamp { transfer.now.timestamp < 2 ^ 63 }
    requires at { transfer.now.at < 2 ^ 63 }
    ensures { LeavesWritten (AddsRows transfer_rows transfer_tree tenant
        (transfer_values (transfer_cells transfer.now) ∷ []))
        (state ledger_schema S.Store trees.old) (state ledger_schema S.Store trees.new) result }
{
    law_ledger_rows_fit();
    trees.add_row(tenant, TransferCells::from_transfer(transfer))
}
