//! How a new ledger is made in an empty database.

ghost use Rattle.std.specs.Prelude.{◌≡◌, IfOk, IfErr, OnErr};
ghost use Rattle.sqlite.specs.State.{HasCleanDisk, Opens};
ghost use Rattle.sqlite.specs.Files.{file_state};
ghost use Rattle.sqlite.specs.Held.{state};
ghost use Rattle.ledger_sql.specs.Calls.{IfClean};
ghost use Rattle.ledger_sql.specs.Frames.{Live, IsUnmarked};
ghost use Rattle.ledger_sql.specs.Schema.{no_schema};
ghost use Rattle.openings.specs.Calls.{AreUsable, IsMadeIn, MakesNew, RefusesToFill};
ghost use Rattle.openings.specs.Found.{IsBlankHere};
ghost use Rattle.openings.specs.OpenTables.{open_state};
ghost use Rattle.openings.specs.Refused.{RefusesToMake};
ghost use Rattle.stored_ledgers.specs.Resting.{Rests, IsNewLedger, IsSame};

use crate::closing::shut;
use crate::open_tables::OpenTables;
use crate::opening::{OpenFault, open_on};
use crate::shape::refusal;
use ledger_sql::creating::make_tables;
use ledger_sql::stages::{abandon, begin, commit};
use records::Unavailable;
use sqlite::{Alter, Connection, FileStore, Files, Options};
use sqlite_disk::Disk;
use std::alloc::Global;

/// Makes an empty ledger in an empty database, whole or not at all.
pub(crate) fn fill<S: Alter>(conn: &mut Connection<S>) -> Result<(), Unavailable>
    requires { IfClean (Rests no_schema) S.Store conn.old }
    ensures makes { MakesNew (state S.Store conn.old) (state S.Store conn.new) result }
    ensures same { Live (state S.Store conn.new) → OnErr result
        (IsSame (state S.Store conn.old) (state S.Store conn.new)) }
{
    let made = make_whole(conn);
    if made.is_err() {
        abandon(conn);
    }
    made
}

/// The same, where a failure may leave the transaction open.
fn make_whole<S: Alter>(conn: &mut Connection<S>) -> Result<(), Unavailable>
    requires { IfClean (Rests no_schema) S.Store conn.old }
    ensures makes { MakesNew (state S.Store conn.old) (state S.Store conn.new) result }
    ensures committed { Live (state S.Store conn.new) → OnErr result
        ((state S.Store conn.new).committed ≡ (state S.Store conn.old).committed) }
    ensures unmarked { Live (state S.Store conn.new) → OnErr result
        (IsUnmarked (state S.Store conn.new)) }
{
    begin(conn)?;
    make_tables(conn)?;
    commit(conn)
}

/// Makes an empty ledger in a database that was just opened, if it has no tables yet. The files are
/// given back where it is refused.
pub(crate) fn fill_new<D: Disk + Drop>(
    mut conn: Connection<FileStore<D>>,
) -> Result<Connection<FileStore<D>>, (OpenFault, Files<D>)>
    requires { HasCleanDisk (file_state conn) → Opens (file_state conn) }
    ensures filled { IfOk result (λ new. HasCleanDisk (file_state new)
        → IsNewLedger (file_state new) × IsBlankHere (file_state conn)) }
    ensures refused { IfErr result (RefusesToFill D.Disk (file_state conn)) }
{
    if let Some(fault) = refusal(conn.schema()) {
        return Err((fault, shut(conn)));
    }
    match fill(&mut conn) {
        Ok(()) => Ok(conn),
        Err(why) => Err((OpenFault::Unavailable(why), shut(conn))),
    }
}

/// Makes a ledger without tenants in two files that hold no tables yet. They are given back where
/// it is refused: `NotALedger` where a table of a ledger is there, `Unreadable` where others are.
pub fn create_ledger<D: Disk + Drop>(
    alloc: Global,
    files: Files<D>,
    options: Options,
) -> Result<OpenTables<D>, (OpenFault, Files<D>)>
    requires { AreUsable D.Disk files }
    ensures made { IfOk result (λ tables. IsMadeIn D.Disk files (open_state tables)) }
    ensures refused { IfErr result (RefusesToMake D.Disk files) }
{
    let conn = open_on(alloc, files, options)?;
    fill_new(conn)
}
