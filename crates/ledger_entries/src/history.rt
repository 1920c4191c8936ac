//! The rows of an account's history, in pieces.

ghost use Rattle.std.specs.Prelude.{◌≡◌, false, map, IfOk, OnOk};
ghost use Rattle.sqlite.specs.State.{HasCleanDisk, IsUnchanged};
ghost use Rattle.amount.specs.Column.{column_of};
ghost use Rattle.keyed_trees.specs.Kept.{state};
ghost use Rattle.keyed_trees.specs.Rows.{ReadsRange, row_of};
ghost use Rattle.ledger_sql.specs.Frames.{Follows};
ghost use Rattle.ledger_sql.specs.Schema.{history_tree, ledger_schema};
ghost use Rattle.ledger_layout.specs.Keys.{by_entry};
ghost use Rattle.ledger_entries.specs.Pieces.{EndsApart, IsUnreadOf, ReadsPiece};
ghost use Rattle.ledger_entries.specs.Pieces.{entry_at, history_columns};

use keyed_trees::{Range, Tables};
use ledger_layout::{ByEntry, LedgerLayout, TenantRow, cause, write_entry_key, write_id_key};
use records::Unavailable;
use rows::HistoryCells;
use sqlite_trees::store::{Direction, Store};
use sqlite_value::row::Row;
use sqlite_value::value::ValueRef;
use std::alloc::{AllocError, Global};

/// An account of a tenant.
#[derive(Clone, Copy, Debug, PartialEq, Eq)]
pub struct TenantAccount {
    pub tenant: i64,
    pub id: u128,
}

/// Some of an account's entries: those from a time on, or backward from it, in nanoseconds.
#[derive(Clone, Copy, Debug)]
pub(crate) struct Walk {
    pub account: TenantAccount,
    pub time: i64,
    pub direction: Direction,
}

/// A row of the history, with its rowid.
pub(crate) type HistoryRow = (i64, TenantRow<HistoryCells>);

/// What is still to be read of an account's history, as a range of the key of entries.
#[derive(Drop)]
pub(crate) struct Unread {
    start: Row,
    stop: Row,
    direction: Direction,
}

/// Rows that were read, and whether no more are left.
#[derive(Drop)]
pub(crate) struct Piece {
    pub rows: Vec<HistoryRow>,
    pub is_last: bool,
}

impl Unread {
    /// All that a walk reads.
    pub(crate) fn of(alloc: Global, walk: &Walk) -> Result<Unread, AllocError>
        ensures { IfOk result (IsUnreadOf walk.now.account.tenant
            (column_of walk.now.account.id) walk.now.time walk.now.direction) }
    {
        let account = walk.account;
        let mut start = Row::new(alloc);
        write_entry_key(&mut start, account.tenant, account.id, walk.time)?;
        let mut stop = Row::new(alloc);
        write_id_key(&mut stop, account.tenant, account.id)?;
        Ok(Unread {
            start,
            stop,
            direction: walk.direction,
        })
    }

    /// Reads the next rows, at most `most` of them. One row more is looked at, to begin there again.
    pub(crate) fn read_piece<S: Store>(
        &mut self,
        tables: &mut Tables<S, LedgerLayout>,
        most: u32,
    ) -> Result<Piece, Unavailable>
        ensures piece { HasCleanDisk (state ledger_schema S.Store tables.new) →
            IfOk result (λ piece. ReadsPiece self.old self.new
            ((state ledger_schema S.Store tables.old).now.trees history_tree)
            (map (row_of history_columns) piece.rows.items) piece.is_last) }
        ensures stop { self.new.stop ≡ self.old.stop }
        ensures direction { self.new.direction ≡ self.old.direction }
        ensures same { HasCleanDisk (state ledger_schema S.Store tables.new) → OnOk result
            (IsUnchanged (state ledger_schema S.Store tables.old)
            (state ledger_schema S.Store tables.new)) }
        ensures follows { Follows (state ledger_schema S.Store tables.old)
            (state ledger_schema S.Store tables.new) }
    {
        let mut rows = self.read_rows(tables, u64::from(most) + 1)?;
        if rows.len() <= most as usize {
            return Ok(Piece {
                rows,
                is_last: true,
            });
        }
        let next = rows.take_last();
        if ends_with(&rows, &next) {
            return Err(Unavailable::Disk);
        }
        self.start_at(&next)?;
        Ok(Piece {
            rows,
            is_last: false,
        })
    }

    fn read_rows<S: Store>(
        &self,
        tables: &mut Tables<S, LedgerLayout>,
        most: u64,
    ) -> Result<Vec<HistoryRow>, Unavailable>
        ensures read { HasCleanDisk (state ledger_schema S.Store tables.new) →
            IfOk result (λ read. ReadsRange history_columns by_entry self.now.direction
            self.now.start self.now.stop most
            ((state ledger_schema S.Store tables.old).now.trees history_tree) read.items) }
        ensures same { HasCleanDisk (state ledger_schema S.Store tables.new) → OnOk result
            (IsUnchanged (state ledger_schema S.Store tables.old)
            (state ledger_schema S.Store tables.new)) }
        ensures follows { Follows (state ledger_schema S.Store tables.old)
            (state ledger_schema S.Store tables.new) }
    {
        let range = Range {
            start: &self.start,
            stop: &self.stop,
            direction: self.direction,
        };
        match tables.range::<ByEntry>(&range, most) {
            Ok(read) => Ok(read),
            Err(error) => Err(cause(error)),
        }
    }

    /// Puts the start at a row's entry.
    fn start_at(&mut self, row: &HistoryRow) -> Result<(), AllocError>
        ensures start { OnOk result (self.new.start ≡ entry_at row.now) }
        ensures stop { self.new.stop ≡ self.old.stop }
        ensures direction { self.new.direction ≡ self.old.direction }
    {
        self.start.clear();
        self.start.push(ValueRef::Int(row.1.tenant))?;
        self.start.push(ValueRef::Blob(&row.1.cells.account))?;
        self.start.push(ValueRef::Int(row.1.cells.timestamp))?;
        self.start.push(ValueRef::Int(row.0))
    }
}

/// Whether the last of these rows has the time and the rowid of this one, as no two rows of an
/// account have in a sound store.
fn ends_with(rows: &[HistoryRow], next: &HistoryRow) -> bool
    ensures { result ≡ false → EndsApart rows.now next.now }
{
    match rows.last() {
        Some(last) => last.0 == next.0 && last.1.cells.timestamp == next.1.cells.timestamp,
        None => false,
    }
}
