//! A ledger of an older version becomes one of a newer version, in one transaction: whole or not at
//! all. What was written is looked at as at an opening before it is committed.

ghost use Rattle.std.specs.Prelude.{◌≢◌, IsTrue};
ghost use Rattle.records.specs.declared.unavailable.Unavailable.TheVariants.{Disk as DiskFailed};
ghost use Rattle.sqlite.specs.State.{HasCleanDisk};
ghost use Rattle.sqlite.specs.Held.{state};
ghost use Rattle.ledger_sql.specs.Calls.{Changes, IfClean};
ghost use Rattle.ledger_sql.specs.Frames.{Live, Follows};
ghost use Rattle.stored_ledgers.specs.Resting.{IsQuiet, IsSame};
ghost use Rattle.stored_ledgers.specs.Calls.{LeavesSeen};
ghost use Rattle.migrate.specs.Raising.{HasBalanceTables, IsSeen, Prepares};
ghost use Rattle.migrate.specs.Raising.{RaisesOrBegins, RaisesOrTells, RaisesWhole};
ghost use Rattle.migrate.specs.Upgrading.{IsOlder, older_schema};

use crate::filling::{make_derived, make_version};
use crate::older::examine_older;
use ledger_sql::stages::{abandon, begin, commit};
use openings::auditing::FullAudit;
use openings::opened::examine;
use openings::opening::OpenFault;
use openings::versions::CURRENT_VERSION;
use records::Unavailable;
use rows::AllRows;
use sqlite::{Alter, Connection};
use std::alloc::Global;
use std::collections::BTreeMap;
use stored_ledgers::batches::DueSets;
use stored_ledgers::probe::judged;

/// The version in which the tables of balances came.
const BALANCE_VERSION: u32 = 2;

/// An upgrade of a ledger of an older version to the version of these rows, which are all tenants'
/// in that version.
#[derive(Drop)]
pub(crate) struct Upgrade<'a> {
    pub(crate) alloc: Global,
    /// The version that the ledger has.
    pub(crate) version: u32,
    pub(crate) rows: &'a AllRows,
}

impl Upgrade<'_> {
    /// Brings the ledger to the newer version. After a fault nothing has changed.
    pub(crate) fn raise<S: Alter>(&self, conn: &mut Connection<S>) -> Result<DueSets, OpenFault>
        requires { IfClean (IsOlder (older_schema self.now.version)) S.Store conn.old }
        ensures { RaisesOrTells (OpenFault.Unavailable DiskFailed) self.now.rows.now.version
            (state S.Store conn.old) (state S.Store conn.new) result }
    {
        match self.raise_whole(conn) {
            Ok(due) => Ok(due),
            Err(fault) => Err(judged_fault(conn, fault)),
        }
    }

    /// The same, where a failure may have shut the database unnoticed.
    fn raise_whole<S: Alter>(&self, conn: &mut Connection<S>) -> Result<DueSets, OpenFault>
        requires { IfClean (IsOlder (older_schema self.now.version)) S.Store conn.old }
        ensures { RaisesWhole self.now.rows.now.version
            (state S.Store conn.old) (state S.Store conn.new) result }
    {
        let raised = self.write(conn);
        if raised.is_err() {
            abandon(conn);
        }
        raised
    }

    /// The same, where a failure may leave the transaction open.
    fn write<S: Alter>(&self, conn: &mut Connection<S>) -> Result<DueSets, OpenFault>
        requires { IfClean (IsOlder (older_schema self.now.version)) S.Store conn.old }
        ensures { RaisesOrBegins self.now.rows.now.version
            (state S.Store conn.old) (state S.Store conn.new) result }
    {
        let due = self.prepare(conn)?;
        commit(conn)?;
        Ok(due)
    }

    /// All of it but the commit.
    fn prepare<S: Alter>(&self, conn: &mut Connection<S>) -> Result<DueSets, OpenFault>
        requires { IfClean (IsOlder (older_schema self.now.version)) S.Store conn.old }
        ensures { Prepares self.now.rows.now.version
            (state S.Store conn.old) (state S.Store conn.new) result }
    {
        self.begin_balanced(conn)?;
        make_version(conn, self.rows.version)?;
        let due = self.look(conn)?;
        Ok(due)
    }

    /// Begins the transaction, and makes the tables of balances and fills them unless they are
    /// there.
    fn begin_balanced<S: Alter>(&self, conn: &mut Connection<S>) -> Result<(), Unavailable>
        requires { IfClean (IsOlder (older_schema self.now.version)) S.Store conn.old }
        ensures { Changes HasBalanceTables S.Store conn.old conn.new result }
    {
        begin(conn)?;
        if self.version == 1 {
            make_derived(conn, self.rows)?;
            return Ok(());
        }
        Ok(())
    }

    /// Looks at the newer ledger, as an opening does.
    fn look<S: Alter>(&self, conn: &mut Connection<S>) -> Result<DueSets, OpenFault>
        ensures { LeavesSeen (λ db sets. IsSeen self.now.rows.now.version sets db)
            (state S.Store conn.old) (state S.Store conn.new) result }
    {
        if self.rows.version < CURRENT_VERSION {
            examine_older(self.alloc, conn, BALANCE_VERSION, &FullAudit)?;
            return Ok(BTreeMap::new(self.alloc));
        }
        let due = examine(self.alloc, conn, &FullAudit)?;
        Ok(due)
    }
}

/// Why it failed, where the database is still open; else a fault of the disk.
fn judged_fault<S: Alter>(conn: &mut Connection<S>, fault: OpenFault) -> OpenFault
    ensures open { HasCleanDisk (state S.Store conn.new)
        → result ≢ OpenFault.Unavailable DiskFailed → IsTrue (state S.Store conn.new).is_open }
    ensures same { Live (state S.Store conn.new) → IsQuiet (state S.Store conn.old)
        → IsSame (state S.Store conn.old) (state S.Store conn.new) }
    ensures follows { Follows (state S.Store conn.old) (state S.Store conn.new) }
{
    let why = match fault {
        OpenFault::Unavailable(why) => why,
        _ => Unavailable::Size,
    };
    match judged::<Connection<S>, ()>(conn, Err(why)) {
        Err(Unavailable::Disk) => OpenFault::Unavailable(Unavailable::Disk),
        _ => fault,
    }
}
