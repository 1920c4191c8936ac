ghost use Rattle.std.specs.Prelude.{◌≡◌, IfOk, IsPermutation, IsSorted, map, string_bytes};
ghost use Rattle.keyed_trees.specs.Kept.{state};
ghost use Rattle.ledger_sql.specs.Calls.{LeavesListed};
ghost use Rattle.ledger_sql.specs.Reading.{ReadsRows, directory_cmp};
ghost use Rattle.ledger_sql.specs.Schema.{after_tenant, ledger_schema};
ghost use Rattle.ledger_sql.specs.TableRows.{directory_rows};
ghost use Rattle.ledger_sql.specs.Values.{directory_values};
ghost use Rattle.ledger_spans.specs.Listing.{entry_of};

use keyed_trees::Tables;
use ledger_layout::{LedgerLayout, TenantEntry, cause};
use ledger_sql::TableFault;
use records::Unavailable;
use rows::DirectoryRow;
use sqlite_trees::store::Store;
use std::alloc::Global;

/// The directory, in order of the tenants' numbers.
pub fn directory<S: Store>(
    alloc: Global,
    tables: &mut Tables<S, LedgerLayout>,
) -> Result<Vec<DirectoryRow>, TableFault>
    ensures { LeavesListed after_tenant (λ trees read. ReadsRows
        (λ row. directory_values row.number (string_bytes row.name) row.digest) directory_cmp
        (directory_rows trees) read.items)
        (state ledger_schema S.Store tables.old) (state ledger_schema S.Store tables.new) result }
{
    let entries = match tables.rows::<TenantEntry>() {
        Ok(entries) => entries,
        Err(error) => return Err(TableFault::Unavailable(cause(error))),
    };
    let rows = sorted_rows(alloc, entries)?;
    Ok(rows)
}

/// The rows of these entries, in order of the tenants' numbers.
fn sorted_rows(
    alloc: Global,
    entries: Vec<(i64, TenantEntry)>,
) -> Result<Vec<DirectoryRow>, Unavailable>
    ensures all { IfOk result (λ rows. IsPermutation entries.items (map entry_of rows.items)) }
    ensures order { IfOk result (λ rows. IsSorted directory_cmp rows.items) }
{
    let mut rows = rows_of(alloc, entries)?;
    sort_by_number(&mut rows);
    Ok(rows)
}

fn sort_by_number(rows: &mut Vec<DirectoryRow>)
    ensures same { IsPermutation rows.old.items rows.new.items }
    ensures sorted { IsSorted directory_cmp rows.new.items }
{
    rows.sort_unstable_by(|a, b| a.number.cmp(&b.number));
}

fn rows_of(
    alloc: Global,
    entries: Vec<(i64, TenantEntry)>,
) -> Result<Vec<DirectoryRow>, Unavailable>
    ensures { IfOk result (λ rows. map entry_of rows.items ≡ entries.items) }
{
    let mut rows = Vec::new(alloc);
    for (number, entry) in entries {
        let TenantEntry { name, digest } = entry;
        rows.push(DirectoryRow {
            number,
            name,
            digest,
        })?;
    }
    Ok(rows)
}
