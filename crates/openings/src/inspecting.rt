//! A database that was just opened, looked at before anyone else gets it.

ghost use Rattle.std.specs.Prelude.{IfOk, IfErr};
ghost use Rattle.sqlite.specs.State.{HasCleanDisk};
ghost use Rattle.sqlite.specs.Files.{file_state};
ghost use Rattle.openings.specs.Calls.{AreUsable, RefusesBy, StandsOn};
ghost use Rattle.openings.specs.Opened.{WasOpenedOn};

use crate::closing::shut;
use crate::opening::{OpenFault, open_on};
use crate::refused::Refused;
use sqlite::{Alter, Connection, FileStore, Files, Options};
use sqlite_disk::Disk;
use std::alloc::Global;

/// What looks at a database that was just opened. It only reads.
pub trait Inspection {
    type Found: Drop;

    ghost use Rattle.std.specs.Prelude.{IfOk};
    ghost use Rattle.sqlite.specs.Effect.{Database};
    ghost use Rattle.openings.specs.Calls.{Examines};
    ghost use Rattle.openings.specs.declared.opening.OpenFault.{OpenFault};

    // What is known of each answer, whatever the disk has done.
    ghost known: { Self.Found → Type 0 };

    // What an answer says of the database.
    ghost finds: { Self.Found → Database → Type 0 };

    // In which case of the database a fault is told.
    ghost refuses: { OpenFault → Database → Type 0 };

    /// Looks at it, and answers what was found, or why it is refused.
    fn inspect<S: Alter>(
        &self,
        alloc: Global,
        conn: &mut Connection<S>,
    ) -> Result<Self::Found, OpenFault>
        ensures known { IfOk result known }
        ensures examines { Examines finds refuses S.Store conn.old conn.new result };
}

/// Opens the database in two files, and looks at it. They are given back where it is refused, and
/// it is told whether they hold what they held.
pub fn open_telling<D: Disk + Drop, I: Inspection>(
    alloc: Global,
    files: Files<D>,
    options: Options,
    inspection: &I,
) -> Result<(Connection<FileStore<D>>, I::Found), (Refused, Files<D>)>
    requires { AreUsable D.Disk files }
    ensures known { IfOk result (λ it. I.known it.1) }
    ensures finds { IfOk result (λ it. HasCleanDisk (file_state it.0)
        → I.finds it.1 (file_state it.0).now) }
    ensures opened { IfOk result (λ it. StandsOn D.Disk files WasOpenedOn (file_state it.0)) }
    ensures refused { IfErr result (RefusesBy D.Disk I.refuses files) }
{
    let mut conn = match open_on(alloc, files, options) {
        Ok(conn) => conn,
        Err((fault, left)) => {
            let stands = false;
            return Err((Refused { fault, stands }, left));
        }
    };
    match inspection.inspect(alloc, &mut conn) {
        Ok(found) => Ok((conn, found)),
        Err(fault) => {
            let stands = true;
            Err((Refused { fault, stands }, shut(conn)))
        }
    }
}
