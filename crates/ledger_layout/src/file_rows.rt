//! The rows of the tables that no tenant owns.

use crate::indexes::{CLOCK, SCHEMA, TENANT};
use crate::layout::LedgerLayout;
use keyed_trees::{Columns, Record, write_values};
use sqlite_trees::error::StoreError;
use sqlite_value::row::Row;
use sqlite_value::value::ValueRef;
use std::alloc::AllocError;

/// The version of the schema.
#[derive(Drop)]
pub struct VersionRow {
    pub version: i64,
}

impl Record<LedgerLayout> for VersionRow {
    ghost use Rattle.std.specs.Prelude.{refl};
    ghost use Rattle.std.proofs.Common.{rules};
    ghost use Rattle.ledger_sql.specs.Schema.{schema_tree};
    ghost use Rattle.ledger_layout.specs.FileRows.{version_columns};

    ghost table = { schema_tree };

    ghost cells = { λ row. version_columns row.version };

    ghost listed = { (0, Prim.search rules, refl) };

    fn table() -> u32 {
        SCHEMA
    }

    fn write(&self, row: &mut Row) -> Result<(), AllocError> {
        write_values(row, &[ValueRef::Null, ValueRef::Int(self.version)])
    }

    fn read(columns: &mut Columns<'_>) -> Result<VersionRow, StoreError> {
        columns.null()?;
        Ok(VersionRow {
            version: columns.integer()?,
        })
    }
}

/// A tenant in the directory. The rowid is the tenant's number.
#[derive(Drop)]
pub struct TenantEntry {
    pub name: String,
    /// The digest of the tenant's key.
    pub digest: [u8; 32],
}

impl Record<LedgerLayout> for TenantEntry {
    ghost use Rattle.std.specs.Prelude.{refl, string_bytes};
    ghost use Rattle.std.proofs.Common.{rules};
    ghost use Rattle.ledger_sql.specs.Schema.{tenant_tree};
    ghost use Rattle.ledger_layout.specs.FileRows.{tenant_columns};

    ghost table = { tenant_tree };

    ghost cells = { λ row. tenant_columns (string_bytes row.name) row.digest };

    ghost listed = { (1, Prim.search rules, refl) };

    fn table() -> u32 {
        TENANT
    }

    fn write(&self, row: &mut Row) -> Result<(), AllocError> {
        write_values(
            row,
            &[
                ValueRef::Null,
                ValueRef::Text(self.name.as_bytes()),
                ValueRef::Blob(&self.digest),
            ],
        )
    }

    fn read(columns: &mut Columns<'_>) -> Result<TenantEntry, StoreError> {
        columns.null()?;
        let name = columns.text()?;
        let digest = columns.bytes()?;
        Ok(TenantEntry { name, digest })
    }
}

/// A tenant's clock. The rowid is the tenant's number.
#[derive(Drop)]
pub struct ClockRow {
    /// In nanoseconds, as the file has it.
    pub clock: i64,
}

impl Record<LedgerLayout> for ClockRow {
    ghost use Rattle.std.specs.Prelude.{refl};
    ghost use Rattle.std.proofs.Common.{rules};
    ghost use Rattle.ledger_sql.specs.Schema.{clock_tree};
    ghost use Rattle.ledger_layout.specs.FileRows.{clock_columns};

    ghost table = { clock_tree };

    ghost cells = { λ row. clock_columns row.clock };

    ghost listed = { (2, Prim.search rules, refl) };

    fn table() -> u32 {
        CLOCK
    }

    fn write(&self, row: &mut Row) -> Result<(), AllocError> {
        write_values(row, &[ValueRef::Null, ValueRef::Int(self.clock)])
    }

    fn read(columns: &mut Columns<'_>) -> Result<ClockRow, StoreError> {
        columns.null()?;
        Ok(ClockRow {
            clock: columns.integer()?,
        })
    }
}
