//! A tenant's rows in a span of time. Both ends of the span are inclusive, in nanoseconds.

ghost use Rattle.std.specs.Prelude.{◌≡◌, [], ◌∷◌, IfOk, OnOk, suc};
ghost use Rattle.sqlite_value.specs.declared.value.Value.TheVariants.{Int};
ghost use Rattle.sqlite.specs.State.{HasCleanDisk};
ghost use Rattle.keyed_trees.specs.Kept.{state};
ghost use Rattle.ledger_sql.specs.Calls.{LeavesRead};
ghost use Rattle.ledger_sql.specs.Entries.{ReadsUpTo};
ghost use Rattle.ledger_sql.specs.Schema.{ledger_schema};
ghost use Rattle.ledger_sql.specs.Spans.{AscendAt, DescendAt, rows_between};
ghost use Rattle.ledger_sql.specs.TableRows.{rows_in};

use keyed_trees::{Range, Tables};
use ledger_layout::{ByTime, LedgerLayout, TenantRow, Timed, cause, write_time_key};
use records::Unavailable;
use sqlite_trees::store::{Direction, Store};
use sqlite_value::row::Row;
use std::alloc::{AllocError, Global};

/// A tenant's oldest rows of a span of time, at most `most`, in order of time.
pub(crate) fn oldest<S: Store, C: Timed>(
    alloc: Global,
    tables: &mut Tables<S, LedgerLayout>,
    tenant: i64,
    first: i64,
    last: i64,
    most: u32,
) -> Result<Vec<(i64, TenantRow<C>)>, Unavailable>
    ensures read { HasCleanDisk (state ledger_schema S.Store tables.new) → IfOk result
        (λ read. ReadsUpTo (λ it. C.values it.1.cells) most
        (rows_between C.time_at first last (rows_in C.table (suc C.others) tenant
        (state ledger_schema S.Store tables.old).now.trees)) (AscendAt C.time_at) read.items) }
    ensures reads { LeavesRead (state ledger_schema S.Store tables.old)
        (state ledger_schema S.Store tables.new) result }
{
    let mut start = Row::new(alloc);
    let mut stop = Row::new(alloc);
    if write_ends(&mut start, &mut stop, tenant, first, last).is_err() {
        tables.rollback();
        return Err(Unavailable::Memory);
    }
    let range = Range {
        start: &start,
        stop: &stop,
        direction: Direction::Forward,
    };
    match tables.range::<ByTime<C>>(&range, u64::from(most)) {
        Ok(read) => Ok(read),
        Err(error) => Err(cause(error)),
    }
}

/// A tenant's newest rows of a span of time, at most `most`, the newest first.
pub(crate) fn newest<S: Store, C: Timed>(
    alloc: Global,
    tables: &mut Tables<S, LedgerLayout>,
    tenant: i64,
    first: i64,
    last: i64,
    most: u32,
) -> Result<Vec<(i64, TenantRow<C>)>, Unavailable>
    ensures read { HasCleanDisk (state ledger_schema S.Store tables.new) → IfOk result
        (λ read. ReadsUpTo (λ it. C.values it.1.cells) most
        (rows_between C.time_at first last (rows_in C.table (suc C.others) tenant
        (state ledger_schema S.Store tables.old).now.trees)) (DescendAt C.time_at) read.items) }
    ensures reads { LeavesRead (state ledger_schema S.Store tables.old)
        (state ledger_schema S.Store tables.new) result }
{
    let mut start = Row::new(alloc);
    let mut stop = Row::new(alloc);
    if write_ends(&mut start, &mut stop, tenant, last, first).is_err() {
        tables.rollback();
        return Err(Unavailable::Memory);
    }
    let range = Range {
        start: &start,
        stop: &stop,
        direction: Direction::Backward,
    };
    match tables.range::<ByTime<C>>(&range, u64::from(most)) {
        Ok(read) => Ok(read),
        Err(error) => Err(cause(error)),
    }
}

/// Writes the keys (tenant, timestamp) where a walk from one time to another starts and stops.
fn write_ends(
    start: &mut Row,
    stop: &mut Row,
    tenant: i64,
    from: i64,
    to: i64,
) -> Result<(), AllocError>
    ensures start { OnOk result (start.new ≡ Int tenant ∷ Int from ∷ []) }
    ensures stop { OnOk result (stop.new ≡ Int tenant ∷ Int to ∷ []) }
{
    write_time_key(start, tenant, from)?;
    write_time_key(stop, tenant, to)
}
