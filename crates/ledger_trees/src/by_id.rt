//! One row of a tenant, by its id.

ghost use Rattle.std.specs.Prelude.{◌≡◌, [], ◌∷◌, option_map, suc};
ghost use Rattle.amount.specs.Column.{column_of};
ghost use Rattle.sqlite_value.specs.declared.value.Value.TheVariants.{Int};
ghost use Rattle.keyed_trees.specs.Kept.{state};
ghost use Rattle.ledger_sql.specs.Calls.{AnyWidth, LeavesWritten};
ghost use Rattle.ledger_sql.specs.Effects.{AddsRows, SetsOne};
ghost use Rattle.ledger_sql.specs.Schema.{ledger_schema};
ghost use Rattle.ledger_sql.specs.TableRows.{has_id, rows_in, with_id};
ghost use Rattle.ledger_layout.specs.Tables.{FitsAt};
ghost use Rattle.ledger_tables.specs.Calls.{LeavesRowFound};

use crate::ledger_trees::LedgerTrees;
use ledger_layout::{ById, Identified, Kind, TenantRow, cause, write_id_key};
use records::Unavailable;
use sqlite_trees::store::Store;

impl<S: Store> LedgerTrees<S> {
    /// A tenant's row with this id.
    pub(crate) fn find_row<C: Identified>(
        &mut self,
        tenant: i64,
        id: u128,
    ) -> Result<Option<C>, Unavailable>
        ensures { LeavesRowFound AnyWidth C.values
            (λ trees. with_id (column_of id) (rows_in C.table (suc C.others) tenant trees))
            (state ledger_schema S.Store self.old) (state ledger_schema S.Store self.new) result }
    {
        if write_id_key(&mut self.key, tenant, id).is_err() {
            self.tables.rollback();
            return Err(Unavailable::Memory);
        }
        let found = match self.tables.find::<ById<C>>(&self.key) {
            Ok(found) => found,
            Err(error) => return Err(cause(error)),
        };
        Ok(cells_of(found))
    }

    /// Adds a row to a tenant's.
    pub(crate) fn add_row<C: Kind>(&mut self, tenant: i64, cells: C) -> Result<(), Unavailable>
        requires { FitsAt C.table (Int tenant ∷ C.values cells) }
        ensures { LeavesWritten (AddsRows (rows_in C.table (suc C.others)) C.table tenant
            (C.values cells ∷ []))
            (state ledger_schema S.Store self.old) (state ledger_schema S.Store self.new) result }
    {
        match self.tables.add(&TenantRow { tenant, cells }) {
            Ok(()) => Ok(()),
            Err(error) => Err(cause(error)),
        }
    }

    /// Sets the row of a tenant that has this id.
    pub(crate) fn set_row<C: Identified>(
        &mut self,
        tenant: i64,
        id: u128,
        cells: C,
    ) -> Result<(), Unavailable>
        requires { FitsAt C.table (Int tenant ∷ C.values cells) }
        ensures { LeavesWritten (SetsOne (rows_in C.table (suc C.others)) C.table tenant
            (has_id (column_of id)) (C.values cells))
            (state ledger_schema S.Store self.old) (state ledger_schema S.Store self.new) result }
    {
        if write_id_key(&mut self.key, tenant, id).is_err() {
            self.tables.rollback();
            return Err(Unavailable::Memory);
        }
        match self
            .tables
            .set::<ById<C>>(&self.key, &TenantRow { tenant, cells })
        {
            Ok(()) => Ok(()),
            Err(error) => Err(cause(error)),
        }
    }
}

/// The columns of the row that was found, without its rowid and its tenant.
fn cells_of<C: Kind>(found: Option<(i64, TenantRow<C>)>) -> Option<C>
    ensures { result ≡ option_map (λ it. it.1.cells) found }
{
    match found {
        Some((_, row)) => Some(row.cells),
        None => None,
    }
}
