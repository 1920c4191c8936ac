//! Rows of an account's history that are handed to a sink as entries.

ghost use Rattle.std.specs.Prelude.{◌≡◌, [], ◌∷◌, false, map, IfOk, IsPermutation, OnOk};
ghost use Rattle.sqlite.specs.State.{HasCleanDisk, IsUnchanged};
ghost use Rattle.keyed_trees.specs.Kept.{state};
ghost use Rattle.keyed_trees.specs.Rows.{row_of};
ghost use Rattle.ledger_sql.specs.Frames.{Follows};
ghost use Rattle.ledger_sql.specs.Schema.{ledger_schema};
ghost use Rattle.ledger_entries.specs.Handing.{HandsJoined, HandsList, IsStill, entry_with};
ghost use Rattle.ledger_entries.specs.Handing.{joined, transfer_columns, transfers_at};
ghost use Rattle.ledger_entries.specs.Pieces.{history_columns};

use crate::history::HistoryRow;
use keyed_trees::{Range, Tables};
use ledger_layout::{ByTime, LedgerLayout, TenantRow, cause, write_time_key};
use ledger_sql::{EntryCells, EntrySink};
use records::Unavailable;
use rows::{HistoryCells, TransferCells};
use sqlite_trees::store::{Direction, Store};
use sqlite_value::row::Row;

/// A transfer's row, with its rowid.
type TransferRow = (i64, TenantRow<TransferCells>);

/// What is still wanted of a tenant's entries.
#[derive(Drop)]
pub(crate) struct Wanted {
    pub tenant: i64,
    /// How many entries at most.
    pub left: u32,
    /// The key of a transfer, which is written over.
    pub key: Row,
}

/// Hands the entries of rows of the history to a sink. Answers whether more are wanted.
pub(crate) fn hand_rows<S: Store, K: EntrySink>(
    tables: &mut Tables<S, LedgerLayout>,
    rows: &[HistoryRow],
    wanted: &mut Wanted,
    sink: &mut K,
) -> Result<bool, Unavailable>
    requires { K.is_full sink.old ≡ false }
    ensures handed { HandsJoined K.takes K.is_full (HasCleanDisk (state ledger_schema S.Store tables.new))
        (joined wanted.old.tenant (state ledger_schema S.Store tables.old).now.trees)
        (map (row_of history_columns) rows.now) wanted.old.left wanted.new.left
        sink.old sink.new result }
    ensures tenant { wanted.new.tenant ≡ wanted.old.tenant }
    ensures same { HasCleanDisk (state ledger_schema S.Store tables.new) → OnOk result (IsStill
        (state ledger_schema S.Store tables.old) (state ledger_schema S.Store tables.new)) }
    ensures follows { Follows (state ledger_schema S.Store tables.old)
        (state ledger_schema S.Store tables.new) }
{
    for row in rows {
        let more = hand_row(tables, row, wanted, sink)?;
        if !more {
            return Ok(false);
        }
    }
    Ok(true)
}

/// Hands the entries of one row of the history to a sink: there is one for each transfer of its time.
fn hand_row<S: Store, K: EntrySink>(
    tables: &mut Tables<S, LedgerLayout>,
    row: &HistoryRow,
    wanted: &mut Wanted,
    sink: &mut K,
) -> Result<bool, Unavailable>
    requires { K.is_full sink.old ≡ false }
    ensures handed { HandsJoined K.takes K.is_full (HasCleanDisk (state ledger_schema S.Store tables.new))
        (joined wanted.old.tenant (state ledger_schema S.Store tables.old).now.trees)
        (row_of history_columns row.now ∷ []) wanted.old.left wanted.new.left
        sink.old sink.new result }
    ensures tenant { wanted.new.tenant ≡ wanted.old.tenant }
    ensures same { HasCleanDisk (state ledger_schema S.Store tables.new) → OnOk result (IsStill
        (state ledger_schema S.Store tables.old) (state ledger_schema S.Store tables.new)) }
    ensures follows { Follows (state ledger_schema S.Store tables.old)
        (state ledger_schema S.Store tables.new) }
{
    if wanted.left == 0 {
        return Ok(false);
    }
    let transfers = find_transfers(tables, wanted, row.1.cells.timestamp)?;
    Ok(hand_transfers(&row.1.cells, &transfers, &mut wanted.left, sink))
}

/// A tenant's transfers of a time: one, in a sound ledger.
fn find_transfers<S: Store>(
    tables: &mut Tables<S, LedgerLayout>,
    wanted: &mut Wanted,
    time: i64,
) -> Result<Vec<TransferRow>, Unavailable>
    ensures found { HasCleanDisk (state ledger_schema S.Store tables.new) → IfOk result (λ read.
        IsPermutation (transfers_at wanted.old.tenant time
        (state ledger_schema S.Store tables.old).now.trees)
        (map (row_of transfer_columns) read.items)) }
    ensures tenant { wanted.new.tenant ≡ wanted.old.tenant }
    ensures left { wanted.new.left ≡ wanted.old.left }
    ensures same { HasCleanDisk (state ledger_schema S.Store tables.new) → OnOk result
        (IsUnchanged (state ledger_schema S.Store tables.old)
        (state ledger_schema S.Store tables.new)) }
    ensures follows { Follows (state ledger_schema S.Store tables.old)
        (state ledger_schema S.Store tables.new) }
{
    write_time_key(&mut wanted.key, wanted.tenant, time)?;
    let range = Range {
        start: &wanted.key,
        stop: &wanted.key,
        direction: Direction::Forward,
    };
    match tables.all_in_range::<ByTime<TransferCells>>(&range) {
        Ok(read) => Ok(read),
        Err(error) => Err(cause(error)),
    }
}

/// Hands a row of the history to a sink with each of these transfers. Answers whether more are
/// wanted.
fn hand_transfers<K: EntrySink>(
    history: &HistoryCells,
    transfers: &[TransferRow],
    left: &mut u32,
    sink: &mut K,
) -> bool
    requires { K.is_full sink.old ≡ false }
    ensures { HandsList K.takes K.is_full (map (entry_with history.now) transfers.now)
        left.old left.new sink.old sink.new result }
{
    for transfer in transfers {
        if *left == 0 {
            return false;
        }
        *left -= 1;
        let entry = EntryCells {
            history: *history,
            transfer: transfer.1.cells,
        };
        if !sink.entry(&entry) {
            return false;
        }
    }
    true
}
