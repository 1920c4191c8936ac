//! The balances of a tenant's accounts.

ghost use Rattle.std.specs.Prelude.{[], ◌∷◌};
ghost use Rattle.amount.specs.Column.{column_of};
ghost use Rattle.rows.specs.Cells.{balance_cells};
ghost use Rattle.rows.specs.Widths.{IsStorableBalance};
ghost use Rattle.keyed_trees.specs.Kept.{state};
ghost use Rattle.ledger_sql.specs.Calls.{LeavesWritten};
ghost use Rattle.ledger_sql.specs.Effects.{AddsRows, SetsOne};
ghost use Rattle.ledger_sql.specs.Schema.{balance_tree, ledger_schema};
ghost use Rattle.ledger_sql.specs.TableRows.{balance_rows, has_id, with_id};
ghost use Rattle.ledger_sql.specs.Values.{balance_values};
ghost use Rattle.ledger_tables.specs.Calls.{LeavesRowFound};

use crate::ledger_trees::LedgerTrees;
use ledger_rules::laws::law_ledger_rows_fit;
use records::Unavailable;
use rows::{BalanceCells, BalanceRow};
use sqlite_trees::store::Store;

/// The balances of a tenant's account with this id, at the tenant's clock.
pub(crate) fn find<S: Store>(
    trees: &mut LedgerTrees<S>,
    tenant: i64,
    account: u128,
) -> Result<Option<BalanceRow>, Unavailable>
    ensures { LeavesRowFound IsStorableBalance (λ row. balance_values (balance_cells row))
        (λ trees. with_id (column_of account) (balance_rows tenant trees))
        (state ledger_schema S.Store trees.old) (state ledger_schema S.Store trees.new) result }
{
    match trees.find_row::<BalanceCells>(tenant, account)? {
        Some(cells) => Ok(Some(cells.to_row())),
        None => Ok(None),
    }
}

/// Adds the balances of a tenant's new account.
pub(crate) fn add<S: Store>(
    trees: &mut LedgerTrees<S>,
    tenant: i64,
    row: &BalanceRow,
) -> Result<(), Unavailable>
    ensures { LeavesWritten (AddsRows balance_rows balance_tree tenant
        (balance_values (balance_cells row.now) ∷ []))
        (state ledger_schema S.Store trees.old) (state ledger_schema S.Store trees.new) result }
{
    law_ledger_rows_fit();
    trees.add_row(tenant, BalanceCells::from_row(row))
}

/// Sets the balances of a tenant's account.
pub(crate) fn set<S: Store>(
    trees: &mut LedgerTrees<S>,
    tenant: i64,
    row: &BalanceRow,
) -> Result<(), Unavailable>
    ensures { LeavesWritten (SetsOne balance_rows balance_tree tenant
        (has_id (column_of row.now.account)) (balance_values (balance_cells row.now)))
        (state ledger_schema S.Store trees.old) (state ledger_schema S.Store trees.new) result }
{
    law_ledger_rows_fit();
    trees.set_row(tenant, row.account, BalanceCells::from_row(row))
}
