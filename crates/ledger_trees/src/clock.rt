//! A tenant's clock.

ghost use Rattle.std.specs.Prelude.{◌≡◌, ◌<◌, ◌^◌, true, pos, [], ◌∷◌, IfSome, option_map};
ghost use Rattle.keyed_trees.specs.Kept.{state};
ghost use Rattle.ledger_sql.specs.Calls.{AnyWidth, LeavesWritten};
ghost use Rattle.ledger_sql.specs.Effects.{AddsRows, SetsOne};
ghost use Rattle.ledger_sql.specs.Schema.{clock_tree, ledger_schema};
ghost use Rattle.ledger_sql.specs.TableRows.{clock_rows};
ghost use Rattle.ledger_sql.specs.Values.{clock_values};
ghost use Rattle.ledger_tables.specs.Calls.{LeavesRowFound};

use crate::ledger_trees::LedgerTrees;
use ledger_layout::{ClockRow, cause};
use ledger_rules::laws::law_ledger_rows_fit;
use records::Unavailable;
use sqlite_trees::store::Store;

/// A tenant's clock, in nanoseconds.
pub(crate) fn find<S: Store>(
    trees: &mut LedgerTrees<S>,
    tenant: i64,
) -> Result<Option<u64>, Unavailable>
    ensures { LeavesRowFound AnyWidth (λ clock. clock_values (pos clock))
        (λ trees. clock_rows tenant trees)
        (state ledger_schema S.Store trees.old) (state ledger_schema S.Store trees.new) result }
{
    let Some(clock) = find_row(trees, tenant)? else {
        return Ok(None);
    };
    match unsigned(clock) {
        Some(clock) => Ok(Some(clock)),
        None => Err(Unavailable::Size),
    }
}

/// A tenant's clock, as the file has it.
fn find_row<S: Store>(trees: &mut LedgerTrees<S>, tenant: i64) -> Result<Option<i64>, Unavailable>
    ensures { LeavesRowFound AnyWidth clock_values (λ trees. clock_rows tenant trees)
        (state ledger_schema S.Store trees.old) (state ledger_schema S.Store trees.new) result }
{
    let found = match trees.tables.find_at::<ClockRow>(tenant) {
        Ok(found) => found,
        Err(error) => return Err(cause(error)),
    };
    Ok(clock_of(found))
}

fn clock_of(found: Option<(i64, ClockRow)>) -> Option<i64>
    ensures { result ≡ option_map (λ it. it.1.clock) found }
{
    match found {
        Some((_, row)) => Some(row.clock),
        None => None,
    }
}

fn unsigned(number: i64) -> Option<u64>
    ensures { IfSome result (λ n. number ≡ pos n) }
{
    u64::try_from(number).ok()
}

/// Adds a new tenant's clock, in nanoseconds.
pub(crate) fn add<S: Store>(
    trees: &mut LedgerTrees<S>,
    tenant: i64,
    clock: u64,
) -> Result<(), Unavailable>
    requires { clock < 2 ^ 63 }
    ensures { LeavesWritten (AddsRows clock_rows clock_tree tenant (clock_values (pos clock) ∷ []))
        (state ledger_schema S.Store trees.old) (state ledger_schema S.Store trees.new) result }
{
    let clock = clock as i64;
    law_ledger_rows_fit();
    match trees.tables.add_at(tenant, &ClockRow { clock }) {
        Ok(()) => Ok(()),
        Err(error) => Err(cause(error)),
    }
}

/// Sets a tenant's clock, in nanoseconds.
pub(crate) fn set<S: Store>(
    trees: &mut LedgerTrees<S>,
    tenant: i64,
    clock: u64,
) -> Result<(), Unavailable>
    requires { clock < 2 ^ 63 }
    ensures { LeavesWritten (SetsOne clock_rows clock_tree tenant (λ _. true)
        (clock_values (pos clock)))
        (state ledger_schema S.Store trees.old) (state ledger_schema S.Store trees.new) result }
{
    let clock = clock as i64;
    law_ledger_rows_fit();
    match trees.tables.put(tenant, &ClockRow { clock }) {
        Ok(()) => Ok(()),
        Err(error) => Err(cause(error)),
    }
}
