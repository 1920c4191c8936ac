//! What tests do to files that no store has.

use crate::tests::disks::{Calls, Faulty, WIDE};
use sqlite::{Connection, Error, ErrorCode, FileStore, Files};
use sqlite_disk::Disk;
use std::alloc::Global;

/// A file of bytes that are none of a database, and an empty log.
pub fn noise<D: Faulty>(alloc: Global) -> Files<D> {
    let mut db = D::made(alloc, Calls::All);
    if db.may_be_used() {
        let _ = db.write_at(0, &[255; 100]);
    }
    Files {
        log: D::made(alloc, Calls::All),
        db,
    }
}

/// A database of no ledger, or one behind its back.
type Database<D> = Connection<FileStore<D>>;

/// Files after statements of SQL, and how these went.
pub fn changed<D: Disk + Drop>(
    alloc: Global,
    files: Files<D>,
    sql: &str,
) -> (Files<D>, Result<(), Error>) {
    match opened(alloc, files) {
        Ok(mut database) => {
            let told = database.execute_batch(sql);
            (database.into_store().close(), told)
        }
        Err((error, files)) => (files, Err(error)),
    }
}

fn opened<D: Disk + Drop>(
    alloc: Global,
    files: Files<D>,
) -> Result<Database<D>, (Error, Files<D>)> {
    if !files.may_be_used() {
        return Err((Error::SqliteFailure(ErrorCode::Closed), files));
    }
    match Connection::open_files(alloc, files, WIDE) {
        Ok(database) => Ok(database),
        Err((error, left)) => Err((error, left.into_files())),
    }
}
