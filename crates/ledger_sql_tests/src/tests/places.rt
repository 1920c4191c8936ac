//! Where the tables of a test are: in memory, and in a file. Disks are named only where files are
//! made, and what opens and closes a connection is generic over them, since each function that
//! holds one of a named disk takes long to prove.

ghost use Rattle.std.specs.Prelude.{IsTrue};

use super::any_file::{AnyFile, OneOf};
use super::unclaimed::Unclaimed;
use either::{Left, Right};
use sqlite::{Connection, Files, Options, Unknown};
use sqlite_disk::{Disk, Memory};
use std::alloc::Global;
use std::process::Abort;
use std::test::Fail;

/// Few pages, since each opening makes room for all of them.
const SMALL: Options = Options {
    cache_pages: 100,
    spill_pages: 100,
    checkpoint_frames: 100,
    seed: 7,
};

/// What a test does on a connection, and is told there.
pub trait Visit {
    type Told: Drop;

    fn visit<S: Unclaimed, R: Abort>(
        &self,
        rt: &R,
        alloc: Global,
        conn: &mut Connection<S>,
    ) -> Result<Self::Told, Fail>;
}

/// What is told on files, which are opened, and then closed.
fn visit_files<A: Disk + Drop, B: Disk + Drop, R: Abort, V: Visit>(
    rt: &R,
    alloc: Global,
    files: Files<OneOf<A, B>>,
    visit: &V,
) -> Result<V::Told, Fail>
    requires log { IsTrue (⟦<OneOf<A, B> as Disk>⟧.is_usable files.log) }
    requires db { IsTrue (⟦<OneOf<A, B> as Disk>⟧.is_usable files.db) }
{
    match Connection::open_files(alloc, files, SMALL) {
        Ok(mut conn) => {
            let told = visit.visit(rt, alloc, &mut conn);
            let closed = conn.close();
            let told = told?;
            closed?;
            Ok(told)
        }
        Err((error, _)) => Err(error.into()),
    }
}

/// What is told on new tables in memory.
pub fn in_memory<V: Visit>(
    rt: &HostRuntime,
    abort: &impl Abort,
    visit: &V,
) -> Result<V::Told, Fail> {
    let files: Files<AnyFile> = Files {
        log: OneOf::new(Left(Memory::new(rt.alloc()))),
        db: OneOf::new(Left(Memory::new(rt.alloc()))),
    };
    visit_files(abort, rt.alloc(), files, visit)
}

/// What is told on the tables in a file.
pub fn at_path<V: Visit>(
    rt: &HostRuntime,
    abort: &impl Abort,
    path: &str,
    visit: &V,
) -> Result<V::Told, Fail> {
    let files = sqlite_std_file::open(rt, path, Unknown)?;
    let files: Files<AnyFile> = Files {
        log: OneOf::new(Right(files.log)),
        db: OneOf::new(Right(files.db)),
    };
    visit_files(abort, rt.alloc(), files, visit)
}
