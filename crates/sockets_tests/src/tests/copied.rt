//! Copies of files of this machine.

use copies::{CopyFault, Copying, Progress, copy_whole};
use sqlite::{Alter, Connection, Error, File, FileStore};
use std::fs;
use std::os::unix::fs::MetadataExt;
use std::test::Fail;

// What may have a name that begins with that of a copy.
const ENDS: [&str; 6] = ["", "-wal", "-journal", "-sums", ".part", ".part-wal"];

fn write_both(rt: &HostRuntime, db: &str, first: &[u8], second: &[u8]) -> Result<(), Fail> {
    let log = format!(in rt.alloc(); "{db}-wal")?;
    fs::write(rt, db, first)?;
    Ok(fs::write(rt, log.as_str(), second)?)
}

// Whatever has a name that begins with that of a copy is taken away.
fn clear(rt: &HostRuntime, db: &str) -> Result<(), Fail> {
    for end in ENDS {
        let path = format!(in rt.alloc(); "{db}{end}")?;
        let _ = fs::remove_file(rt, path.as_str());
    }
    Ok(())
}

// How many of these names there are.
fn count(rt: &HostRuntime, db: &str) -> Result<usize, Fail> {
    let mut count = 0usize;
    for end in ENDS {
        let path = format!(in rt.alloc(); "{db}{end}")?;
        if fs::exists(rt, path.as_str())? {
            count = count.saturating_add(1);
        }
    }
    Ok(count)
}

// A new database with an empty table, whose rows stay in the log.
fn made(rt: &HostRuntime, db: &str) -> Result<Connection<FileStore<File>>, Error> {
    let mut conn = Connection::open(rt, db)?;
    conn.execute("CREATE TABLE t (n INTEGER)", &[])?;
    Ok(conn)
}

fn add_row<S: Alter>(conn: &mut Connection<S>) -> Result<(), Error> {
    conn.execute("INSERT INTO t VALUES (1)", &[])?;
    Ok(())
}

// How many rows a database has.
fn rows(rt: &HostRuntime, db: &str) -> Result<i64, Error> {
    let mut conn = Connection::open(rt, db)?;
    conn.query_row("SELECT count(*) FROM t", &[])?.get(0)
}

fn begun(rt: &HostRuntime, from: &str, to: &str) -> Result<Copying, Fail> {
    match Copying::begin(rt, from, to) {
        Ok(copying) => Ok(copying),
        Err(_) => Err(Fail::new(format_args!("no copy begins"))),
    }
}

// A copy behind so many turns, none of which is the last.
fn go_on(rt: &HostRuntime, from: Copying, turns: u32) -> Result<Copying, Fail> {
    let mut copying = from;
    for _ in 0..turns {
        let Ok(Progress::More(next)) = copying.go_on(rt) else {
            return Err(Fail::new(format_args!("it has ended")));
        };
        copying = next;
    }
    Ok(copying)
}

#[test]
fn a_copy_is_one_file_for_its_owner(rt: HostRuntime) -> Result<(), Fail> {
    clear(&rt, "a.db")?;
    clear(&rt, "b.db")?;
    let mut conn = made(&rt, "a.db")?;
    add_row(&mut conn)?;
    let Ok(bytes) = copy_whole(&rt, "a.db", "b.db") else {
        return Err(Fail::new(format_args!("no copy")));
    };
    drop(conn);
    let found = fs::metadata(&rt, "b.db")?;
    assert_eq!(rt; found.len(), bytes);
    assert_eq!(rt; found.mode() & 0o777, 0o600);
    assert_eq!(rt; count(&rt, "b.db")?, 1);
    assert_eq!(rt; rows(&rt, "b.db")?, 1);
    clear(&rt, "a.db")?;
    clear(&rt, "b.db")
}

// What is written after the last look at the files is no matter.
#[test]
fn copies_what_stands_at_its_last_look(rt: HostRuntime) -> Result<(), Fail> {
    clear(&rt, "c.db")?;
    clear(&rt, "d.db")?;
    let mut conn = made(&rt, "c.db")?;
    let mut copying = begun(&rt, "c.db", "d.db")?;
    for _ in 0..3 {
        add_row(&mut conn)?;
        copying = go_on(&rt, copying, 1)?;
    }
    add_row(&mut conn)?;
    let copying = go_on(&rt, copying, 1)?;
    assert_eq!(rt; count(&rt, "d.db")?, 2);
    assert!(rt; matches!(copying.go_on(&rt), Ok(Progress::Whole(_))));
    drop(conn);
    assert_eq!(rt; count(&rt, "d.db")?, 1);
    assert_eq!(rt; rows(&rt, "d.db")?, 3);
    assert_eq!(rt; rows(&rt, "c.db")?, 4);
    clear(&rt, "c.db")?;
    clear(&rt, "d.db")
}

#[test]
fn leaves_what_has_a_name_alone(rt: HostRuntime) -> Result<(), Fail> {
    clear(&rt, "e.db")?;
    write_both(&rt, "e.db", b"pages", b"log")?;
    for end in ["", "-wal", "-journal", "-sums"] {
        clear(&rt, "f.db")?;
        let path = format!(in rt.alloc(); "f.db{end}")?;
        fs::write(&rt, path.as_str(), "mine")?;
        assert_eq!(rt; copy_whole(&rt, "e.db", "f.db"), Err(CopyFault::Exists));
        assert_eq!(rt; count(&rt, "f.db")?, 1);
        assert_eq!(rt;
            fs::read(&rt, path.as_str())?.as_slice(),
            b"mine".as_slice()
        );
    }
    clear(&rt, "e.db")?;
    clear(&rt, "f.db")
}

// Nothing is left of a copy that is given up, or cannot be made.
#[test]
fn leaves_nothing_where_it_fails(rt: HostRuntime) -> Result<(), Fail> {
    clear(&rt, "g.db")?;
    clear(&rt, "h.db")?;
    assert_eq!(rt; copy_whole(&rt, "g.db", "h.db"), Err(CopyFault::Failed));
    assert_eq!(rt; count(&rt, "h.db")?, 0);
    write_both(&rt, "g.db", b"pages", b"log")?;
    assert_eq!(rt; copy_whole(&rt, "g.db", "h.db"), Err(CopyFault::Failed));
    assert_eq!(rt; count(&rt, "h.db")?, 0);
    for turns in 0..4u32 {
        go_on(&rt, begun(&rt, "g.db", "h.db")?, turns)?.abandon(&rt);
        assert_eq!(rt; count(&rt, "h.db")?, 0);
    }
    clear(&rt, "g.db")
}

// What a copy that was cut short has left is no hindrance.
#[test]
fn takes_away_what_a_copy_has_left(rt: HostRuntime) -> Result<(), Fail> {
    clear(&rt, "i.db")?;
    clear(&rt, "j.db")?;
    drop(made(&rt, "i.db")?);
    write_both(&rt, "j.db.part", b"half", b"of a log")?;
    assert!(rt; copy_whole(&rt, "i.db", "j.db").is_ok());
    assert_eq!(rt; count(&rt, "j.db")?, 1);
    assert_eq!(rt; rows(&rt, "j.db")?, 0);
    clear(&rt, "i.db")?;
    clear(&rt, "j.db")
}
