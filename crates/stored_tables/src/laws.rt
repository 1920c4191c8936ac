//! What the rows of a tenant tell of its machine. The functions do nothing: each one's contract is
//! a law.

ghost use Rattle.std.specs.Prelude.{◌≡◌, ℕ, ℤ, pos, ◌<◌, ◌^◌, Option, Some, option_map};
ghost use Rattle.std.specs.List.{list_any};
ghost use Rattle.amount.specs.Column.{column_of};
ghost use Rattle.records.specs.Machine.{Machine, account_with, transfer_with};
ghost use Rattle.records.specs.Machine.{has_id as is_among};
ghost use Rattle.rows.specs.Cells.{account_cells, transfer_cells, status_cells};
ghost use Rattle.rows.specs.Keyed.{row_with};
ghost use Rattle.rows.specs.Prescribed.{rows_for};
ghost use Rattle.rows.specs.Widths.{IsStorableAccount, IsStorableTransfer, IsStorableStatus};
ghost use Rattle.sqlite_trees.specs.Tree.{Trees};
ghost use Rattle.ledger_sql.specs.Effects.{Picks};
ghost use Rattle.ledger_sql.specs.TableRows.{clock_rows, account_rows, transfer_rows, status_rows};
ghost use Rattle.ledger_sql.specs.TableRows.{failed_rows, has_id};
ghost use Rattle.ledger_sql.specs.Values.{clock_values, account_values, transfer_values};
ghost use Rattle.ledger_sql.specs.Values.{status_values};
ghost use Rattle.stored_tables.specs.Found.{TellsById};
ghost use Rattle.stored_tables.specs.Holds.{HoldsMachine};
ghost use Rattle.stored_tables.specs.MachineOf.{machine_of};

use amount::columns_keep_order;
use records::{Account, Transfer};
use rows::{
    StatusRow, cells_tell_rows, found_by_key, keys_are_distinct, read_in_order, rows_fit,
    rows_stand_in_order,
};

/// A tenant's machine is the one that its rows tell.
pub fn held_machines()
    ensures { (tenant : ℤ) (m : Machine) (trees : Trees) →
        HoldsMachine tenant m trees → machine_of tenant trees ≡ m }
{
    rows_fit();
    rows_stand_in_order();
    read_in_order::<Account>();
    read_in_order::<Transfer>();
    read_in_order::<u128>();
}

/// What is found of a tenant by a whole key is what its machine has.
pub(crate) fn point_reads()
    ensures clock { (tenant : ℤ) (m : Machine) (trees : Trees) (found : Option ℕ) →
        HoldsMachine tenant m trees →
        Picks (clock_rows tenant trees) (option_map (λ clock. clock_values (pos clock)) found) →
        found ≡ Some m.clock }
    ensures account { TellsById IsStorableAccount (λ row. account_values (account_cells row))
        account_rows (λ id m. account_with id m.accounts) }
    ensures transfer { TellsById IsStorableTransfer (λ row. transfer_values (transfer_cells row))
        transfer_rows (λ id m. transfer_with id m.transfers) }
    ensures status { TellsById IsStorableStatus (λ row. status_values (status_cells row))
        status_rows (λ id m. row_with (λ row. row.transfer) id (rows_for 3 m).statuses) }
    ensures failed { (tenant : ℤ) (m : Machine) (trees : Trees) (id : ℕ) →
        HoldsMachine tenant m trees → id < 2 ^ 128 →
        list_any (has_id (column_of id)) (failed_rows tenant trees) ≡ is_among id m.failed }
{
    columns_keep_order();
    rows_fit();
    cells_tell_rows();
    keys_are_distinct();
    found_by_key::<Account>();
    found_by_key::<Transfer>();
    found_by_key::<StatusRow>();
}
