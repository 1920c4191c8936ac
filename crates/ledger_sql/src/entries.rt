//! An account's entries from a time on, oldest first, and up to a time, newest first: handed out one
//! after the other.

ghost use Rattle.std.specs.Prelude.{◌≡◌, false};
ghost use Rattle.sqlite.specs.Values.{bound};
ghost use Rattle.sqlite.specs.Held.{state};
ghost use Rattle.amount.specs.Column.{column_of};
ghost use Rattle.ledger_sql.specs.Calls.{Reads, SawLedger};
ghost use Rattle.ledger_sql.specs.Entries.{entries_when, AreOldestFirst, AreNewestFirst, HandsUpTo};
ghost use Rattle.ledger_sql.specs.Handing.{HandsRows};
ghost use Rattle.ledger_sql.specs.Queries.{IsReading};
ghost use Rattle.ledger_sql.specs.TableRows.{is_from, is_until};

use crate::entry_sink::EntrySink;
use crate::read::read_row;
use crate::table_fault::{TableFault, known};
use records::Unavailable;
use sqlite::types::ValueRef;
use sqlite::{Alter, Connection, params};

/// The history of an account from a time on, with the transfers of these times, oldest first and so
/// many at most.
const FIRST_FROM: &str =
    "SELECT history.account, history.timestamp, history.dp, history.dd, history.cp, history.cc, \
        transfer.id, transfer.debit, transfer.credit, transfer.amount, transfer.pending_id, \
        transfer.user_data_128, transfer.user_data_64, transfer.user_data_32, transfer.timeout, \
        transfer.ledger, transfer.code, transfer.flags, transfer.timestamp, transfer.at_clock \
        FROM history JOIN transfer ON transfer.tenant = ?1 AND transfer.timestamp = \
        history.timestamp WHERE history.tenant = ?1 AND history.account = ?2 AND \
        history.timestamp >= ?3 ORDER BY history.timestamp LIMIT ?4";

/// The same up to a time, newest first.
const FIRST_UNTIL: &str =
    "SELECT history.account, history.timestamp, history.dp, history.dd, history.cp, history.cc, \
        transfer.id, transfer.debit, transfer.credit, transfer.amount, transfer.pending_id, \
        transfer.user_data_128, transfer.user_data_64, transfer.user_data_32, transfer.timeout, \
        transfer.ledger, transfer.code, transfer.flags, transfer.timestamp, transfer.at_clock \
        FROM history JOIN transfer ON transfer.tenant = ?1 AND transfer.timestamp = \
        history.timestamp WHERE history.tenant = ?1 AND history.account = ?2 AND \
        history.timestamp <= ?3 ORDER BY history.timestamp DESC LIMIT ?4";

/// Hands the entries of a tenant's account from a time on, in nanoseconds, oldest first and so many
/// at most, to a sink until it is full. After an `Err` it has taken the first of them.
pub fn first_entries_from<S: Alter, K: EntrySink>(
    conn: &mut Connection<S>,
    tenant: i64,
    account: u128,
    time: i64,
    count: u32,
    sink: &mut K,
) -> Result<(), Unavailable>
    requires { K.is_full sink.old ≡ false }
    ensures handed { HandsUpTo K.takes K.is_full (SawLedger S.Store conn.old conn.new) count
        (entries_when tenant (column_of account) (is_from time) (state S.Store conn.old).now.trees)
        AreOldestFirst sink.old sink.new result }
    ensures reads { Reads S.Store conn.old conn.new result }
{
    let key = account.to_be_bytes();
    known(hand_out(
        conn,
        FIRST_FROM,
        params![tenant, key.as_slice(), time, count],
        sink,
    ))
}

/// Hands the entries of a tenant's account up to a time, in nanoseconds, newest first and so many
/// at most, to a sink until it is full. After an `Err` it has taken the first of them.
pub fn first_entries_until<S: Alter, K: EntrySink>(
    conn: &mut Connection<S>,
    tenant: i64,
    account: u128,
    time: i64,
    count: u32,
    sink: &mut K,
) -> Result<(), Unavailable>
    requires { K.is_full sink.old ≡ false }
    ensures handed { HandsUpTo K.takes K.is_full (SawLedger S.Store conn.old conn.new) count
        (entries_when tenant (column_of account) (is_until time) (state S.Store conn.old).now.trees)
        AreNewestFirst sink.old sink.new result }
    ensures reads { Reads S.Store conn.old conn.new result }
{
    let key = account.to_be_bytes();
    known(hand_out(
        conn,
        FIRST_UNTIL,
        params![tenant, key.as_slice(), time, count],
        sink,
    ))
}

/// Hands the rows of a query's answer to a sink until it is full.
fn hand_out<S: Alter, K: EntrySink>(
    conn: &mut Connection<S>,
    text: &str,
    params: &[ValueRef<'_>],
    sink: &mut K,
) -> Result<(), TableFault>
    requires reading { IsReading text.now }
    requires open { K.is_full sink.old ≡ false }
    ensures handed { HandsRows K.takes K.is_full text.now (bound params.now)
        (state S.Store conn.old) (state S.Store conn.new) sink.old sink.new result }
    ensures reads { Reads S.Store conn.old conn.new result }
{
    let mut rows = conn.query(text, params)?;
    'rows: for _ in 0..u64::MAX {
        let Some(row) = rows.next()? else {
            return Ok(());
        };
        let entry = read_row(row)?;
        if !sink.entry(&entry) {
            return Ok(());
        }
    }
    Err(TableFault::Unavailable(Unavailable::Size))
}
