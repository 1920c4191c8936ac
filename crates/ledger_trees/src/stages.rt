//! Where a transaction begins and ends, and its marks.

ghost use Rattle.std.specs.Prelude.{◌≡◌, IsTrue, OnErr, OnOk};
ghost use Rattle.sqlite.specs.State.{HasCleanDisk, Survives};
ghost use Rattle.keyed_trees.specs.Kept.{state};
ghost use Rattle.ledger_sql.specs.Calls.{LeavesOver, LeavesWritten};
ghost use Rattle.ledger_rules.specs.Whole.{IsWhole};
ghost use Rattle.ledger_sql.specs.Frames.{Follows, IsKeptOrUndone, Live};
ghost use Rattle.ledger_sql.specs.Schema.{ledger_schema};
ghost use Rattle.ledger_sql.specs.Stages.{HasBegun, HasCommitted, HasGoneBack, HasMarked};
ghost use Rattle.ledger_sql.specs.Stages.{HasReleased, TellsOpen};

use crate::ledger_trees::LedgerTrees;
use ledger_layout::cause;
use records::Unavailable;
use sqlite_trees::store::Store;

/// Opens a transaction.
pub(crate) fn begin<S: Store>(trees: &mut LedgerTrees<S>) -> Result<(), Unavailable>
    ensures { LeavesWritten HasBegun (state ledger_schema S.Store trees.old)
        (state ledger_schema S.Store trees.new) result }
{
    match trees.tables.begin() {
        Ok(()) => Ok(()),
        Err(error) => Err(cause(error)),
    }
}

/// Commits the transaction. A crash in it leaves what was committed before or what was written.
pub(crate) fn commit<S: Store>(trees: &mut LedgerTrees<S>) -> Result<(), Unavailable>
    requires { Live (state ledger_schema S.Store trees.old) →
        IsWhole (state ledger_schema S.Store trees.old).now.trees }
    ensures ok { HasCleanDisk (state ledger_schema S.Store trees.new) → OnOk result (HasCommitted
        (state ledger_schema S.Store trees.old) (state ledger_schema S.Store trees.new)) }
    ensures err { HasCleanDisk (state ledger_schema S.Store trees.new) → OnErr result
        (IsKeptOrUndone (state ledger_schema S.Store trees.old)
        (state ledger_schema S.Store trees.new)) }
    ensures survives { Survives (state ledger_schema S.Store trees.old)
        (state ledger_schema S.Store trees.new)
        (λ db. db ≡ (state ledger_schema S.Store trees.old).now.trees) }
{
    match trees.tables.commit() {
        Ok(()) => Ok(()),
        Err(error) => Err(cause(error)),
    }
}

/// Ends the transaction, if one is open, with nothing of it kept.
pub(crate) fn abandon<S: Store>(trees: &mut LedgerTrees<S>)
    ensures { LeavesOver (state ledger_schema S.Store trees.old)
        (state ledger_schema S.Store trees.new) }
{
    trees.tables.rollback();
}

/// Marks in a transaction where to go back to.
pub(crate) fn mark<S: Store>(trees: &mut LedgerTrees<S>) -> Result<(), Unavailable>
    ensures { LeavesWritten HasMarked (state ledger_schema S.Store trees.old)
        (state ledger_schema S.Store trees.new) result }
{
    match trees.tables.mark() {
        Ok(()) => Ok(()),
        Err(error) => Err(cause(error)),
    }
}

/// Goes back to the newest mark, which stays.
pub(crate) fn back_to_mark<S: Store>(trees: &mut LedgerTrees<S>) -> Result<(), Unavailable>
    ensures { LeavesWritten HasGoneBack (state ledger_schema S.Store trees.old)
        (state ledger_schema S.Store trees.new) result }
{
    match trees.tables.back_to_mark() {
        Ok(()) => Ok(()),
        Err(error) => Err(cause(error)),
    }
}

/// Drops the newest mark, and keeps what was written since.
pub(crate) fn release_mark<S: Store>(trees: &mut LedgerTrees<S>) -> Result<(), Unavailable>
    ensures { LeavesWritten HasReleased (state ledger_schema S.Store trees.old)
        (state ledger_schema S.Store trees.new) result }
{
    match trees.tables.release_mark() {
        Ok(()) => Ok(()),
        Err(error) => Err(cause(error)),
    }
}

/// Whether the store is open, asked outside a transaction.
pub(crate) fn is_open<S: Store>(trees: &mut LedgerTrees<S>) -> bool
    ensures tells { HasCleanDisk (state ledger_schema S.Store trees.new) →
        TellsOpen result (state ledger_schema S.Store trees.old)
        (state ledger_schema S.Store trees.new) }
    ensures follows { Follows (state ledger_schema S.Store trees.old)
        (state ledger_schema S.Store trees.new) }
{
    !trees.tables.is_in_transaction() && trees.tables.is_open()
}
