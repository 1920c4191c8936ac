//! A tenant's accounts and transfers in a span of time, so many at most, oldest or newest first.
//!
//! The tables keep `(tenant, timestamp)` unique, and the index of that key serves these texts: it
//! gives the tenant's rows of these times in either order. Nothing is sorted, and no row is read
//! beyond the last one that is asked for.

ghost use Rattle.std.specs.Prelude.{All, map, IfOk};
ghost use Rattle.sqlite.specs.State.{Shown};
ghost use Rattle.rows.specs.Cells.{account_cells, transfer_cells};
ghost use Rattle.rows.specs.Widths.{IsStorableAccount, IsStorableTransfer};
ghost use Rattle.ledger_sql.specs.Calls.{AnswersWith, FindsRows, Reads};
ghost use Rattle.ledger_sql.specs.Entries.{ReadsUpTo};
ghost use Rattle.ledger_sql.specs.Queries.{IsReading};
ghost use Rattle.ledger_sql.specs.Spans.{accounts_between, transfers_between, span_params};
ghost use Rattle.ledger_sql.specs.Spans.{AscendAt, DescendAt};
ghost use Rattle.ledger_sql.specs.Values.{account_values, transfer_values};

use crate::query::all_rows;
use crate::read::ReadRow;
use crate::table_fault::known;
use records::{Account, Transfer, Unavailable};
use sqlite::{Alter, Connection, params};
use std::alloc::Global;

/// A tenant's oldest accounts of a span of time, so many at most, in order of time. Both ends of
/// the span are inclusive, in nanoseconds.
pub fn oldest_accounts<S: Alter>(
    alloc: Global,
    conn: &mut Connection<S>,
    tenant: i64,
    first: i64,
    last: i64,
    most: u32,
) -> Result<Vec<Account>, Unavailable>
    ensures { FindsRows (λ read. All IsStorableAccount read.items)
        (λ trees read. ReadsUpTo (λ a. account_values (account_cells a)) most
        (accounts_between tenant first last trees) (AscendAt 7) read.items)
        S.Store conn.old conn.new result }
{
    in_span(
        alloc,
        conn,
        "SELECT id, user_data_128, user_data_64, user_data_32, ledger, code, flags, timestamp \
            FROM account WHERE tenant = ?1 AND timestamp >= ?2 AND timestamp <= ?3 \
            ORDER BY timestamp LIMIT ?4",
        tenant,
        first,
        last,
        most,
    )
}

/// A tenant's newest accounts of a span of time, so many at most, the newest first. Both ends of
/// the span are inclusive, in nanoseconds.
pub fn newest_accounts<S: Alter>(
    alloc: Global,
    conn: &mut Connection<S>,
    tenant: i64,
    first: i64,
    last: i64,
    most: u32,
) -> Result<Vec<Account>, Unavailable>
    ensures { FindsRows (λ read. All IsStorableAccount read.items)
        (λ trees read. ReadsUpTo (λ a. account_values (account_cells a)) most
        (accounts_between tenant first last trees) (DescendAt 7) read.items)
        S.Store conn.old conn.new result }
{
    in_span(
        alloc,
        conn,
        "SELECT id, user_data_128, user_data_64, user_data_32, ledger, code, flags, timestamp \
            FROM account WHERE tenant = ?1 AND timestamp >= ?2 AND timestamp <= ?3 \
            ORDER BY timestamp DESC LIMIT ?4",
        tenant,
        first,
        last,
        most,
    )
}

/// A tenant's oldest transfers of a span of time, so many at most, in order of time. Both ends of
/// the span are inclusive, in nanoseconds.
pub fn oldest_transfers<S: Alter>(
    alloc: Global,
    conn: &mut Connection<S>,
    tenant: i64,
    first: i64,
    last: i64,
    most: u32,
) -> Result<Vec<Transfer>, Unavailable>
    ensures { FindsRows (λ read. All IsStorableTransfer read.items)
        (λ trees read. ReadsUpTo (λ t. transfer_values (transfer_cells t)) most
        (transfers_between tenant first last trees) (AscendAt 12) read.items)
        S.Store conn.old conn.new result }
{
    in_span(
        alloc,
        conn,
        "SELECT id, debit, credit, amount, pending_id, user_data_128, user_data_64, \
            user_data_32, timeout, ledger, code, flags, timestamp, at_clock FROM transfer WHERE \
            tenant = ?1 AND timestamp >= ?2 AND timestamp <= ?3 ORDER BY timestamp LIMIT ?4",
        tenant,
        first,
        last,
        most,
    )
}

/// A tenant's newest transfers of a span of time, so many at most, the newest first. Both ends of
/// the span are inclusive, in nanoseconds.
pub fn newest_transfers<S: Alter>(
    alloc: Global,
    conn: &mut Connection<S>,
    tenant: i64,
    first: i64,
    last: i64,
    most: u32,
) -> Result<Vec<Transfer>, Unavailable>
    ensures { FindsRows (λ read. All IsStorableTransfer read.items)
        (λ trees read. ReadsUpTo (λ t. transfer_values (transfer_cells t)) most
        (transfers_between tenant first last trees) (DescendAt 12) read.items)
        S.Store conn.old conn.new result }
{
    in_span(
        alloc,
        conn,
        "SELECT id, debit, credit, amount, pending_id, user_data_128, user_data_64, \
            user_data_32, timeout, ledger, code, flags, timestamp, at_clock FROM transfer WHERE \
            tenant = ?1 AND timestamp >= ?2 AND timestamp <= ?3 ORDER BY timestamp DESC LIMIT ?4",
        tenant,
        first,
        last,
        most,
    )
}

/// The rows that a text answers for a tenant, both ends of a span of time, and how many at most.
fn in_span<S: Alter, T: ReadRow>(
    alloc: Global,
    conn: &mut Connection<S>,
    text: &str,
    tenant: i64,
    first: i64,
    last: i64,
    most: u32,
) -> Result<Vec<T>, Unavailable>
    requires { IsReading text.now }
    ensures ok { AnswersWith (λ old new read. Shown text.now
        (span_params tenant first last most) old new (map T.values read.items))
        S.Store conn.old conn.new result }
    ensures fits { IfOk result (λ read. All T.is_storable read.items) }
    ensures reads { Reads S.Store conn.old conn.new result }
{
    known(all_rows(alloc, conn, text, params![tenant, first, last, most]))
}
