//! The versions that a file names, and a tenant's clock.

ghost use Rattle.std.specs.Prelude.{◌≡◌, IfOk, IsPermutation, map};
ghost use Rattle.keyed_trees.specs.Kept.{state};
ghost use Rattle.ledger_sql.specs.Calls.{LeavesListed};
ghost use Rattle.ledger_sql.specs.Reading.{ReadsRows, clock_cmp};
ghost use Rattle.ledger_sql.specs.Schema.{after_schema, ledger_schema, list_schema};
ghost use Rattle.ledger_sql.specs.TableRows.{clock_rows, version_rows};
ghost use Rattle.ledger_sql.specs.Values.{clock_values, version_values};
ghost use Rattle.ledger_spans.specs.Listing.{clocks_in};

use keyed_trees::Tables;
use ledger_layout::{ClockRow, LedgerLayout, VersionRow, cause};
use ledger_sql::TableFault;
use records::Unavailable;
use sqlite_trees::store::Store;
use std::alloc::Global;

/// The versions of the schema that a file names: one, where it is a ledger.
pub fn list_versions<S: Store>(
    alloc: Global,
    tables: &mut Tables<S, LedgerLayout>,
) -> Result<Vec<i64>, TableFault>
    ensures { LeavesListed after_schema (λ trees read. IsPermutation (version_rows trees)
        (map version_values read.items))
        (state ledger_schema S.Store tables.old) (state ledger_schema S.Store tables.new) result }
{
    let rows = match tables.rows::<VersionRow>() {
        Ok(rows) => rows,
        Err(error) => return Err(TableFault::Unavailable(cause(error))),
    };
    let versions = versions_of(alloc, rows.as_slice())?;
    Ok(versions)
}

fn versions_of(alloc: Global, rows: &[(i64, VersionRow)]) -> Result<Vec<i64>, Unavailable>
    ensures { IfOk result (λ versions. versions.items ≡ map (λ row. row.1.version) rows.now) }
{
    let mut versions = Vec::new(alloc);
    for row in rows {
        versions.push(row.1.version)?;
    }
    Ok(versions)
}

/// A tenant's clock, as the file has it, in nanoseconds: one, or none where the tenant has none.
pub fn list_clocks<S: Store>(
    alloc: Global,
    tables: &mut Tables<S, LedgerLayout>,
    tenant: i64,
) -> Result<Vec<i64>, TableFault>
    ensures { LeavesListed list_schema (λ trees read. ReadsRows clock_values clock_cmp
        (clock_rows tenant trees) read.items)
        (state ledger_schema S.Store tables.old) (state ledger_schema S.Store tables.new) result }
{
    let found = match tables.find_at::<ClockRow>(tenant) {
        Ok(found) => found,
        Err(error) => return Err(TableFault::Unavailable(cause(error))),
    };
    let clocks = clock_of(alloc, found)?;
    Ok(clocks)
}

/// The clock that was found, or none.
fn clock_of(alloc: Global, found: Option<(i64, ClockRow)>) -> Result<Vec<i64>, Unavailable>
    ensures { IfOk result (λ clocks. clocks.items ≡ clocks_in found) }
{
    let mut clocks = Vec::new(alloc);
    if let Some((_, row)) = found {
        clocks.push(row.clock)?;
    }
    Ok(clocks)
}
