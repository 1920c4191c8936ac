//! The database in some files, by texts of SQL.

use crate::tests::disks::WIDE;
use sqlite::{Alter, Connection, Error, ErrorCode, FileStore, Files};
use sqlite_disk::Disk;
use std::alloc::Global;

/// A connection to the database in some files.
pub fn connected<D: Disk + Drop>(
    alloc: Global,
    files: Files<D>,
) -> Result<Connection<FileStore<D>>, Error> {
    if !files.may_be_used() {
        return Err(Error::SqliteFailure(ErrorCode::CannotOpen));
    }
    match Connection::open_files(alloc, files, WIDE) {
        Ok(conn) => Ok(conn),
        Err((error, _)) => Err(error),
    }
}

/// The files, after statements on their database.
pub fn changed<D: Disk + Drop>(
    alloc: Global,
    files: Files<D>,
    statements: &[&str],
) -> Result<Files<D>, Error> {
    let conn = connected(alloc, files)?;
    Ok(executed(conn, statements)?.close())
}

/// Runs statements, and ends the connection.
pub fn executed<S: Alter + Drop>(mut conn: Connection<S>, statements: &[&str]) -> Result<S, Error> {
    for sql in statements {
        conn.execute(sql, &[])?;
    }
    Ok(conn.into_store())
}

/// The number that a text answers.
pub fn number<S: Alter>(conn: &mut Connection<S>, sql: &str) -> Result<i64, Error> {
    conn.query_row(sql, &[])?.get(0)
}
