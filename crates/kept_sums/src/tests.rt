use crate::{Access, KeptSums, Place, make_beside, open_beside, read_beside, remove_beside};
use file_sums::{LogNoted, Noted, Record, Sums};
use std::cell::Cell;
use std::fs::{self, OpenOptions};
use std::io::{self, ErrorKind};
use std::os::unix::fs::{MetadataExt, PermissionsExt, symlink};
use std::test::Fail;

const FOLDER: &str = "kept_sums_test";

const PATH: &str = "kept_sums_test/a.db";

const SUMS: &str = "kept_sums_test/a.db-sums";

fn noted(mark: u64) -> Noted {
    Noted {
        log: LogNoted::InUse(9),
        mark,
        has_doubt: false,
    }
}

#[test]
fn what_is_appended_is_found_again(rt: HostRuntime) -> Result<(), Fail> {
    let _ = fs::remove_dir_all(&rt, FOLDER);
    fs::create_dir(&rt, FOLDER)?;
    fs::write(&rt, PATH, b"".as_slice())?;
    fs::set_permissions(&rt, PATH, fs::Permissions::from_mode(0o640))?;
    let access = Access {
        rt: &rt,
        path: PATH,
    };
    assert!(rt; open_beside(&access)?.is_none());
    let mut kept = make_beside(&access, 5, &[Record::Log(9), Record::Mark(7)])?;
    assert_eq!(rt; fs::metadata(&rt, SUMS)?.mode() & 0o777, 0o640);
    kept.append(rt.alloc(), Record::Mark(8))?;
    kept.sync()?;
    assert_eq!(rt; kept.noted(), noted(8));
    // It is read, but taken up by nobody else.
    assert_eq!(rt; read_beside(&access)?, Some(noted(8)));
    assert!(rt; open_beside(&access).is_err_and(|error| error.kind() == ErrorKind::WouldBlock));
    drop(kept);

    let kept = open_beside(&access)?.ok_or("gone")?;
    assert_eq!(rt; kept.noted(), noted(8));
    assert_eq!(rt; kept.len(), 104);
    drop(kept);

    // What a crash has cut off is cut away.
    let file = OpenOptions::new().write(true).open(&rt, SUMS)?;
    file.set_len(100)?;
    drop(file);
    let mut kept = open_beside(&access)?.ok_or("gone")?;
    assert_eq!(rt; kept.noted(), noted(7));
    assert_eq!(rt; fs::metadata(&rt, SUMS)?.len(), 80);
    kept.append(rt.alloc(), Record::Mark(9))?;
    drop(kept);
    let kept = open_beside(&access)?.ok_or("gone")?;
    assert_eq!(rt; kept.noted(), noted(9));
    drop(kept);

    assert_eq!(rt; read_beside(&access)?, Some(noted(9)));
    remove_beside(&access)?;
    assert!(rt; open_beside(&access)?.is_none());
    remove_beside(&access)?;
    symlink(&rt, "a.db", SUMS)?;
    assert!(rt; open_beside(&access)?.is_none());
    let kept = make_beside(&access, 5, &[Record::Log(9)])?;
    assert_eq!(rt; kept.noted(), noted(0));
    drop(kept);
    assert_eq!(rt; fs::metadata(&rt, PATH)?.len(), 0);
    fs::write(
        &rt,
        SUMS,
        b"something else, which is as long as a head".as_slice(),
    )?;
    assert!(rt; open_beside(&access)?.is_none());
    fs::remove_dir_all(&rt, FOLDER)?;
    Ok(())
}

// A disk with this many bytes of room, and how long its one file is.
#[derive(Drop)]
struct Disk {
    room: Cell<u64>,
    len: Cell<u64>,
}

// The file on it.
#[derive(Drop)]
struct Scarce<'a> {
    disk: &'a Disk,
}

impl Place for Scarce<'_> {
    ghost use Rattle.std.specs.Prelude.{None};

    ghost bytes = { λ _. None };

    fn write_part(&mut self, at: u64, part: &[u8]) -> io::Result<()> {
        let end = at.saturating_add(part.len() as u64);
        self.disk.len.set(end.min(self.disk.room.get()));
        if end > self.disk.room.get() {
            Err(ErrorKind::StorageFull.into())
        } else {
            Ok(())
        }
    }

    fn sync(&mut self) -> io::Result<()> {
        Ok(())
    }
}

#[test]
fn a_full_disk_takes_nothing_that_stood_there(rt: HostRuntime) -> Result<(), Fail> {
    let alloc = rt.alloc();
    let (sums, head) = Sums::begin(alloc, 4096, 5)?;
    let disk = Disk {
        room: Cell::new(90),
        len: Cell::new(0),
    };
    let mut kept = KeptSums::begin(Scarce { disk: &disk }, sums, &head)?;
    kept.append(alloc, Record::Log(9))?;
    kept.append(alloc, Record::Mark(7))?;
    assert!(rt; kept.append(alloc, Record::Mark(8)).is_err());
    assert_eq!(rt; disk.len.get(), 90);
    assert_eq!(rt; kept.noted(), noted(7));
    assert_eq!(rt; kept.len(), 80);
    disk.room.set(200);
    kept.append(alloc, Record::Mark(9))?;
    assert_eq!(rt; disk.len.get(), 104);
    assert_eq!(rt; kept.noted(), noted(9));
    Ok(())
}
