//! Transactions and their marks. A call that failed has changed nothing, or the whole transaction
//! is undone.

ghost use Rattle.std.specs.Prelude.{◌≡◌, IsTrue, OnOk, OnErr};
ghost use Rattle.sqlite.specs.State.{HasCleanDisk, IsRolledBack, Survives};
ghost use Rattle.sqlite.specs.Held.{state};
ghost use Rattle.ledger_sql.specs.Calls.{GivesUp, IfClean, Writes};
ghost use Rattle.ledger_sql.specs.Frames.{IsKeptOrUndone, Follows};
ghost use Rattle.ledger_sql.specs.Stages.{HasBegun, HasCommitted, IsMarked, HasMarked, HasGoneBack, HasReleased, TellsOpen};

use crate::cause::done;
use records::Unavailable;
use sqlite::{Alter, Connection, Error, ErrorCode};

/// Opens a transaction.
pub fn begin<S: Alter>(conn: &mut Connection<S>) -> Result<(), Unavailable>
    ensures { Writes HasBegun S.Store conn.old conn.new result }
{
    done(conn.execute("BEGIN", &[]))
}

/// Commits the transaction. A crash in it leaves what was committed before or what was written.
pub fn commit<S: Alter>(conn: &mut Connection<S>) -> Result<(), Unavailable>
    ensures ok { HasCleanDisk (state S.Store conn.new) → OnOk result
        (HasCommitted (state S.Store conn.old) (state S.Store conn.new)) }
    ensures err { HasCleanDisk (state S.Store conn.new) → OnErr result
        (IsKeptOrUndone (state S.Store conn.old) (state S.Store conn.new)) }
    ensures survives { Survives (state S.Store conn.old) (state S.Store conn.new)
        (λ db. db ≡ (state S.Store conn.old).now.trees) }
{
    done(conn.execute("COMMIT", &[]))
}

/// Undoes the transaction, whatever it answers.
pub fn rollback<S: Alter>(conn: &mut Connection<S>) -> Result<(), Unavailable>
    ensures undone { HasCleanDisk (state S.Store conn.new) → IsTrue
        (state S.Store conn.old).in_transaction → IsRolledBack (state S.Store conn.old)
        (state S.Store conn.new) }
    ensures follows { Follows (state S.Store conn.old) (state S.Store conn.new) }
{
    done(conn.execute("ROLLBACK", &[]))
}

/// Ends the transaction, if one is open, with nothing of it kept.
pub fn abandon<S: Alter>(conn: &mut Connection<S>)
    ensures { GivesUp S.Store conn.old conn.new }
{
    if !conn.is_autocommit() {
        let _ = rollback(conn);
    }
}

/// Marks in a transaction where to go back to.
pub fn mark<S: Alter>(conn: &mut Connection<S>) -> Result<(), Unavailable>
    requires { IfClean (λ s. IsTrue s.in_transaction) S.Store conn.old }
    ensures { Writes HasMarked S.Store conn.old conn.new result }
{
    done(conn.execute("SAVEPOINT mark", &[]))
}

/// Goes back to the newest mark, which stays.
pub fn back_to_mark<S: Alter>(conn: &mut Connection<S>) -> Result<(), Unavailable>
    requires { IfClean IsMarked S.Store conn.old }
    ensures { Writes HasGoneBack S.Store conn.old conn.new result }
{
    done(conn.execute("ROLLBACK TO mark", &[]))
}

/// Drops the newest mark, and keeps what was written since.
pub fn release_mark<S: Alter>(conn: &mut Connection<S>) -> Result<(), Unavailable>
    requires { IfClean IsMarked S.Store conn.old }
    ensures { Writes HasReleased S.Store conn.old conn.new result }
{
    done(conn.execute("RELEASE mark", &[]))
}

/// Whether the store is open, asked outside a transaction. It may answer false where memory ran
/// out.
pub fn is_open<S: Alter>(conn: &mut Connection<S>) -> bool
    ensures tells { HasCleanDisk (state S.Store conn.new) → TellsOpen result
        (state S.Store conn.old) (state S.Store conn.new) }
    ensures follows { Follows (state S.Store conn.old) (state S.Store conn.new) }
{
    if !conn.is_autocommit() {
        return false;
    }
    is_refused_outside(conn.execute("ROLLBACK", &[]))
}

/// Whether the answer is that no transaction is open.
fn is_refused_outside(answer: Result<usize, Error>) -> bool
    ensures { IsTrue result → answer ≡ Err (Error.SqliteFailure ErrorCode.TransactionState) }
{
    matches!(
        answer,
        Err(Error::SqliteFailure(ErrorCode::TransactionState))
    )
}
