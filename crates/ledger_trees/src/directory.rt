//! The directory of tenants.

ghost use Rattle.std.specs.Prelude.{◌≡◌, [], ◌∷◌, filter, option_map, string_bytes};
ghost use Rattle.sqlite_value.specs.Order.{column};
ghost use Rattle.sqlite_value.specs.declared.value.Value.TheVariants.{Int};
ghost use Rattle.keyed_trees.specs.Kept.{state};
ghost use Rattle.ledger_sql.specs.Calls.{AnyWidth, LeavesWritten};
ghost use Rattle.ledger_sql.specs.Effects.{AddsFileRow, IsInside, SetsDigest};
ghost use Rattle.ledger_sql.specs.Schema.{ledger_schema, tenant_tree};
ghost use Rattle.ledger_sql.specs.TableRows.{directory_rows, is_int, numbers_with_digest, with_name};
ghost use Rattle.ledger_sql.specs.Values.{directory_values};
ghost use Rattle.ledger_tables.specs.Calls.{IfHonest, LeavesRowFound};

use crate::ledger_trees::LedgerTrees;
use ledger_layout::{ByDigest, ByName, TenantEntry, cause, write_digest_key, write_name_key};
use ledger_rules::laws::law_ledger_rows_fit;
use records::Unavailable;
use rows::DirectoryRow;
use sqlite_trees::store::Store;

/// The number of the tenant whose key has this digest.
pub(crate) fn find_by_digest<S: Store>(
    trees: &mut LedgerTrees<S>,
    digest: &[u8],
) -> Result<Option<i64>, Unavailable>
    ensures { LeavesRowFound AnyWidth (λ number. Int number ∷ [])
        (λ trees. numbers_with_digest digest.now trees)
        (state ledger_schema S.Store trees.old) (state ledger_schema S.Store trees.new) result }
{
    if write_digest_key(&mut trees.key, digest).is_err() {
        trees.tables.rollback();
        return Err(Unavailable::Memory);
    }
    let found = match trees.tables.find::<ByDigest>(&trees.key) {
        Ok(found) => found,
        Err(error) => return Err(cause(error)),
    };
    Ok(number_of(found))
}

/// The directory's row with this name.
pub(crate) fn find_by_name<S: Store>(
    trees: &mut LedgerTrees<S>,
    name: &str,
) -> Result<Option<DirectoryRow>, Unavailable>
    ensures { LeavesRowFound AnyWidth
        (λ row. directory_values row.number (string_bytes row.name) row.digest)
        (λ trees. with_name name.now (directory_rows trees))
        (state ledger_schema S.Store trees.old) (state ledger_schema S.Store trees.new) result }
{
    if write_name_key(&mut trees.key, name).is_err() {
        trees.tables.rollback();
        return Err(Unavailable::Memory);
    }
    let found = match trees.tables.find::<ByName>(&trees.key) {
        Ok(found) => found,
        Err(error) => return Err(cause(error)),
    };
    Ok(row_of(found))
}

/// The directory's row with this number.
pub(crate) fn find_by_number<S: Store>(
    trees: &mut LedgerTrees<S>,
    number: i64,
) -> Result<Option<DirectoryRow>, Unavailable>
    ensures { LeavesRowFound AnyWidth
        (λ row. directory_values row.number (string_bytes row.name) row.digest)
        (λ trees. filter (λ row. is_int number (column row 0)) (directory_rows trees))
        (state ledger_schema S.Store trees.old) (state ledger_schema S.Store trees.new) result }
{
    let found = match trees.tables.find_at::<TenantEntry>(number) {
        Ok(found) => found,
        Err(error) => return Err(cause(error)),
    };
    Ok(row_of(found))
}

/// Adds a tenant to the directory. The digest is that of the tenant's key.
pub(crate) fn add<S: Store>(
    trees: &mut LedgerTrees<S>,
    number: i64,
    name: &str,
    digest: &[u8; 32],
) -> Result<(), Unavailable>
    ensures { LeavesWritten (AddsFileRow directory_rows tenant_tree
        (directory_values number name.now digest.now))
        (state ledger_schema S.Store trees.old) (state ledger_schema S.Store trees.new) result }
{
    let Ok(name) = String::from_str(trees.alloc, name) else {
        trees.tables.rollback();
        return Err(Unavailable::Memory);
    };
    let entry = TenantEntry {
        name,
        digest: *digest,
    };
    law_ledger_rows_fit();
    match trees.tables.add_at(number, &entry) {
        Ok(()) => Ok(()),
        Err(error) => Err(cause(error)),
    }
}

/// Sets the digest of a tenant's key. Its number and its name stay.
pub(crate) fn set_digest<S: Store>(
    trees: &mut LedgerTrees<S>,
    number: i64,
    digest: &[u8; 32],
) -> Result<(), Unavailable>
    requires { IfHonest IsInside (state ledger_schema S.Store trees.old) }
    ensures { LeavesWritten (SetsDigest number digest.now)
        (state ledger_schema S.Store trees.old) (state ledger_schema S.Store trees.new) result }
{
    let found = match trees.tables.find_at::<TenantEntry>(number) {
        Ok(found) => found,
        Err(error) => return Err(cause(error)),
    };
    let Some((_, entry)) = found else {
        return Ok(());
    };
    let entry = TenantEntry {
        name: entry.name,
        digest: *digest,
    };
    law_ledger_rows_fit();
    match trees.tables.put(number, &entry) {
        Ok(()) => Ok(()),
        Err(error) => Err(cause(error)),
    }
}

fn number_of(found: Option<(i64, TenantEntry)>) -> Option<i64>
    ensures { result ≡ option_map (λ it. it.0) found }
{
    match found {
        Some((number, _)) => Some(number),
        None => None,
    }
}

fn row_of(found: Option<(i64, TenantEntry)>) -> Option<DirectoryRow>
    ensures { result ≡ option_map (λ it.
        record { number = it.0; name = it.1.name; digest = it.1.digest }) found }
{
    let (number, entry) = found?;
    let digest = entry.digest;
    Some(DirectoryRow {
        number,
        name: entry.name,
        digest,
    })
}
