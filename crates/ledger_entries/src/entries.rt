//! An account's entries from a time on, oldest first, and up to a time, newest first: handed out one
//! after the other.

ghost use Rattle.std.specs.Prelude.{◌≡◌, false, OnOk};
ghost use Rattle.sqlite.specs.State.{HasCleanDisk, IsUnchanged};
ghost use Rattle.amount.specs.Column.{column_of};
ghost use Rattle.keyed_trees.specs.Kept.{state};
ghost use Rattle.ledger_sql.specs.Calls.{LeavesRead};
ghost use Rattle.ledger_sql.specs.Effects.{IsLedger};
ghost use Rattle.ledger_sql.specs.Entries.{AreNewestFirst, AreOldestFirst, HandsUpTo, entries_when};
ghost use Rattle.ledger_sql.specs.Frames.{Follows};
ghost use Rattle.ledger_sql.specs.Schema.{ledger_schema};
ghost use Rattle.ledger_sql.specs.TableRows.{is_from, is_until};
ghost use Rattle.ledger_entries.specs.Walks.{AreInOrder, in_time};

use crate::handing::{Wanted, hand_rows};
use crate::history::{TenantAccount, Unread, Walk};
use keyed_trees::Tables;
use ledger_layout::LedgerLayout;
use ledger_sql::EntrySink;
use records::Unavailable;
use sqlite_trees::store::{Direction, Store};
use sqlite_value::row::Row;
use std::alloc::Global;

/// How many rows of the history are in memory at once, at most, but for one more.
const PIECE: u32 = 128;

/// Hands the entries of a tenant's account from a time on, in nanoseconds, to a sink until it is
/// full: oldest first, at most `count`.
pub fn first_entries_from<S: Store, K: EntrySink>(
    tables: &mut Tables<S, LedgerLayout>,
    alloc: Global,
    account: TenantAccount,
    time: i64,
    count: u32,
    sink: &mut K,
) -> Result<(), Unavailable>
    requires { K.is_full sink.old ≡ false }
    ensures handed { HandsUpTo K.takes K.is_full
        (HasCleanDisk (state ledger_schema S.Store tables.new)
        × IsLedger (state ledger_schema S.Store tables.old).now.schema) count
        (entries_when account.tenant (column_of account.id) (is_from time)
        (state ledger_schema S.Store tables.old).now.trees)
        AreOldestFirst sink.old sink.new result }
    ensures reads { LeavesRead (state ledger_schema S.Store tables.old)
        (state ledger_schema S.Store tables.new) result }
{
    let walk = Walk {
        account,
        time,
        direction: Direction::Forward,
    };
    first_entries(tables, alloc, &walk, count, sink)
}

/// Hands the entries of a tenant's account up to a time, in nanoseconds, to a sink until it is full:
/// newest first, at most `count`.
pub fn first_entries_until<S: Store, K: EntrySink>(
    tables: &mut Tables<S, LedgerLayout>,
    alloc: Global,
    account: TenantAccount,
    time: i64,
    count: u32,
    sink: &mut K,
) -> Result<(), Unavailable>
    requires { K.is_full sink.old ≡ false }
    ensures handed { HandsUpTo K.takes K.is_full
        (HasCleanDisk (state ledger_schema S.Store tables.new)
        × IsLedger (state ledger_schema S.Store tables.old).now.schema) count
        (entries_when account.tenant (column_of account.id) (is_until time)
        (state ledger_schema S.Store tables.old).now.trees)
        AreNewestFirst sink.old sink.new result }
    ensures reads { LeavesRead (state ledger_schema S.Store tables.old)
        (state ledger_schema S.Store tables.new) result }
{
    let walk = Walk {
        account,
        time,
        direction: Direction::Backward,
    };
    first_entries(tables, alloc, &walk, count, sink)
}

/// Hands the first entries of a walk to a sink. A failure undoes the transaction.
fn first_entries<S: Store, K: EntrySink>(
    tables: &mut Tables<S, LedgerLayout>,
    alloc: Global,
    walk: &Walk,
    count: u32,
    sink: &mut K,
) -> Result<(), Unavailable>
    requires { K.is_full sink.old ≡ false }
    ensures handed { HandsUpTo K.takes K.is_full
        (HasCleanDisk (state ledger_schema S.Store tables.new)
        × IsLedger (state ledger_schema S.Store tables.old).now.schema) count
        (entries_when walk.now.account.tenant (column_of walk.now.account.id)
        (in_time walk.now.direction walk.now.time)
        (state ledger_schema S.Store tables.old).now.trees)
        (AreInOrder walk.now.direction) sink.old sink.new result }
    ensures reads { LeavesRead (state ledger_schema S.Store tables.old)
        (state ledger_schema S.Store tables.new) result }
{
    match hand_entries(tables, alloc, walk, count, sink) {
        Ok(()) => Ok(()),
        Err(error) => {
            tables.rollback();
            Err(error)
        }
    }
}

fn hand_entries<S: Store, K: EntrySink>(
    tables: &mut Tables<S, LedgerLayout>,
    alloc: Global,
    walk: &Walk,
    count: u32,
    sink: &mut K,
) -> Result<(), Unavailable>
    requires { K.is_full sink.old ≡ false }
    ensures handed { HandsUpTo K.takes K.is_full
        (HasCleanDisk (state ledger_schema S.Store tables.new)) count
        (entries_when walk.now.account.tenant (column_of walk.now.account.id)
        (in_time walk.now.direction walk.now.time)
        (state ledger_schema S.Store tables.old).now.trees)
        (AreInOrder walk.now.direction) sink.old sink.new result }
    ensures same { HasCleanDisk (state ledger_schema S.Store tables.new) → OnOk result
        (IsUnchanged (state ledger_schema S.Store tables.old)
        (state ledger_schema S.Store tables.new)) }
    ensures follows { Follows (state ledger_schema S.Store tables.old)
        (state ledger_schema S.Store tables.new) }
{
    let mut unread = Unread::of(alloc, walk)?;
    let mut wanted = Wanted {
        tenant: walk.account.tenant,
        left: count,
        key: Row::new(alloc),
    };
    'pieces: for _ in 0..u64::MAX {
        let piece = unread.read_piece(tables, wanted.left.clamp(1, PIECE))?;
        let more = hand_rows(tables, &piece.rows, &mut wanted, sink)?;
        if !more {
            return Ok(());
        }
        if piece.is_last {
            return Ok(());
        }
    }
    Err(Unavailable::Size)
}
