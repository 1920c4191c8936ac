//! A tenant's accounts.

ghost use Rattle.std.specs.Prelude.{[], ◌∷◌, ◌<◌, ◌^◌};
ghost use Rattle.amount.specs.Column.{column_of};
ghost use Rattle.rows.specs.Cells.{account_cells};
ghost use Rattle.rows.specs.Widths.{IsStorableAccount};
ghost use Rattle.keyed_trees.specs.Kept.{state};
ghost use Rattle.ledger_sql.specs.Calls.{LeavesWritten};
ghost use Rattle.ledger_sql.specs.Effects.{AddsRows};
ghost use Rattle.ledger_sql.specs.Schema.{account_tree, ledger_schema};
ghost use Rattle.ledger_sql.specs.TableRows.{account_rows, with_id};
ghost use Rattle.ledger_sql.specs.Values.{account_values};
ghost use Rattle.ledger_tables.specs.Calls.{LeavesRowFound};

use crate::ledger_trees::LedgerTrees;
use ledger_rules::laws::law_ledger_rows_fit;
use records::{Account, Unavailable};
use rows::AccountCells;
use sqlite_trees::store::Store;

/// A tenant's account with this id.
pub(crate) fn find<S: Store>(
    trees: &mut LedgerTrees<S>,
    tenant: i64,
    id: u128,
) -> Result<Option<Account>, Unavailable>
    ensures { LeavesRowFound IsStorableAccount (λ row. account_values (account_cells row))
        (λ trees. with_id (column_of id) (account_rows tenant trees))
        (state ledger_schema S.Store trees.old) (state ledger_schema S.Store trees.new) result }
{
    let Some(cells) = trees.find_row::<AccountCells>(tenant, id)? else {
        return Ok(None);
    };
    match cells.to_account() {
        Some(account) => Ok(Some(account)),
        None => Err(Unavailable::Size),
    }
}

/// Adds an account to a tenant's.
pub(crate) fn add<S: Store>(
    trees: &mut LedgerTrees<S>,
    tenant: i64,
    account: &Account,
) -> Result<(), Unavailable>
    requires { account.now.timestamp < 2 ^ 63 }
    ensures { LeavesWritten (AddsRows account_rows account_tree tenant
        (account_values (account_cells account.now) ∷ []))
        (state ledger_schema S.Store trees.old) (state ledger_schema S.Store trees.new) result }
{
    law_ledger_rows_fit();
    trees.add_row(tenant, AccountCells::from_account(account))
}
