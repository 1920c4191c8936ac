//! The rows of tenants in one table.

ghost use Rattle.std.specs.Prelude.{◌≡◌, ◌∷◌, ◌++◌, Contains, IfOk, OnOk, ℕ, suc};
ghost use Rattle.sqlite_value.specs.Order.{Row as Cells, column};
ghost use Rattle.sqlite_value.specs.declared.value.Value.{Value};
ghost use Rattle.keyed_trees.specs.Columns.{unread};
ghost use Rattle.keyed_trees.specs.Layout.{key_of};
ghost use Rattle.ledger_sql.specs.TableRows.{cells_from};
ghost use Rattle.ledger_layout.specs.Keys.{by_id, by_time, ledger_keys, ledger_tables};

use crate::layout::LedgerLayout;
use keyed_trees::{Columns, Record};
use sqlite_sql::query::Index;
use sqlite_trees::error::StoreError;
use sqlite_value::row::Row;
use sqlite_value::value::ValueRef;
use std::alloc::AllocError;

/// A kind of rows: the columns of its table after the tenant's number.
pub trait Kind: Sized + Drop {
    /// The tree of the table.
    ghost table: { ℕ };

    /// How many columns come after the first of them.
    ghost others: { ℕ };

    /// The values of the columns.
    ghost values: { Self → Cells };

    fn table() -> u32
        ensures { result ≡ table };

    /// Appends the values of the columns.
    fn write(&self, row: &mut Row) -> Result<(), AllocError>
        ensures { OnOk result (row.new ≡ row.old ++ values self.now) };

    /// Reads the columns.
    fn read(columns: &mut Columns<'_>) -> Result<Self, StoreError>
        ensures { IfOk result (λ it. unread columns.old ≡ values it ++ unread columns.new) };

    /// The columns are those of the table after the tenant's number.
    ghost shown: { (it : Self) (rowid tenant : Value) →
        cells_from 2 (suc others) (rowid ∷ tenant ∷ values it) ≡ values it };

    ghost listed: { Contains ledger_tables table };
}

/// Rows with an id, which is their first column.
pub trait Identified: Kind {
    fn id_index() -> Index<'static>
        ensures { key_of result ≡ by_id Self.table };

    ghost keyed: { Contains ledger_keys (by_id Self.table) };
}

/// Rows with a timestamp that no other row of the tenant has.
pub trait Timed: Kind {
    /// The place of the timestamp among the columns.
    ghost time_at: { ℕ };

    fn time_index() -> Index<'static>
        ensures { key_of result ≡ by_time Self.table time_at };

    /// The place is one of the columns.
    ghost timed: { (row : Cells) →
        column (cells_from 2 (suc Self.others) row) time_at ≡ column row (suc (suc time_at)) };

    ghost ordered: { Contains ledger_keys (by_time Self.table time_at) };
}

/// A tenant's row.
#[derive(Drop)]
pub struct TenantRow<C: Kind> {
    pub tenant: i64,
    pub cells: C,
}

impl<C: Kind> Record<LedgerLayout> for TenantRow<C> {
    ghost use Rattle.std.specs.Prelude.{◌∷◌};
    ghost use Rattle.sqlite_value.specs.declared.value.Value.TheVariants.{Int};

    ghost table = { C.table };

    ghost cells = { λ row. Int row.tenant ∷ C.values row.cells };

    ghost listed = { C.listed };

    fn table() -> u32 {
        C::table()
    }

    fn write(&self, row: &mut Row) -> Result<(), AllocError> {
        row.push(ValueRef::Int(self.tenant))?;
        self.cells.write(row)
    }

    fn read(columns: &mut Columns<'_>) -> Result<TenantRow<C>, StoreError> {
        let tenant = columns.integer()?;
        let cells = C::read(columns)?;
        Ok(TenantRow { tenant, cells })
    }
}
