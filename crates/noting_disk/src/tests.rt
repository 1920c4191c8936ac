use crate::{LogNotes, Noting, noted_files};
use sqlite_disk::{Disk, Files, Fuse, Memory};
use std::cell::Cell;
use std::test::Fail;

// The header of a log as SQLite writes it, and the first byte of the frame behind it.
const HEADER: [u8; 41] =
    *b"\x37\x7f\x06\x82\x00\x2d\xe2\x18\x00\x00\x10\x00\x00\x00\x00\x01\x01\x02\x03\x04\x05\x06\x07\x08\x11\x12\x13\x14\x15\x16\x17\x18\x00\x00\x00\x00\x00\x00\x00\x00\x00";

const SALT: [u8; 8] = [1, 2, 3, 4, 5, 6, 7, 8];

// What was noted last, and how often something was.
#[derive(Drop)]
struct Heard {
    salt: Cell<Option<[u8; 8]>>,
    times: Cell<u64>,
}

impl Heard {
    fn nothing() -> Heard {
        Heard {
            salt: Cell::new(None),
            times: Cell::new(0),
        }
    }

    fn so_far(&self) -> (Option<[u8; 8]>, u64) {
        (self.salt.get(), self.times.get())
    }
}

impl LogNotes for Heard {
    fn note_log<D: Disk>(&self, _log: &D, salt: &[u8; 8]) {
        self.salt.set(Some(*salt));
        self.times.set(self.times.get().saturating_add(1));
    }
}

#[test]
fn a_new_log_is_noted_once_behind_its_last_sync(rt: HostRuntime) -> Result<(), Fail> {
    let alloc = rt.alloc();
    let heard = Heard::nothing();
    let files = Files {
        log: Memory::new(alloc),
        db: Memory::new(alloc),
    };
    let Files { mut log, mut db } = noted_files(files, &heard);
    log.write_at(1, &HEADER[1..])?;
    log.sync()?;
    log.write_at(0, &HEADER[..1])?;
    assert_eq!(rt; heard.so_far(), (None, 0));
    log.sync()?;
    assert_eq!(rt; heard.so_far(), (Some(SALT), 1));
    log.write_at(32, &HEADER)?;
    log.sync()?;
    assert_eq!(rt; heard.so_far(), (Some(SALT), 1));
    db.write_at(1, &HEADER[1..])?;
    db.write_at(0, &HEADER[..1])?;
    db.sync()?;
    assert_eq!(rt; heard.so_far(), (Some(SALT), 1));
    Ok(())
}

#[test]
fn a_header_that_is_not_whole_is_not_noted(rt: HostRuntime) -> Result<(), Fail> {
    let heard = Heard::nothing();
    let mut log = Noting::log(Memory::new(rt.alloc()), &heard);
    log.write_at(0, &HEADER[..1])?;
    log.sync()?;
    log.write_at(1, &HEADER[1..])?;
    log.write_at(20, &[0])?;
    log.write_at(0, &HEADER[..1])?;
    log.sync()?;
    log.write_at(1, &HEADER[1..])?;
    log.set_len(20)?;
    log.write_at(0, &HEADER[..1])?;
    log.sync()?;
    assert_eq!(rt; heard.so_far(), (None, 0));
    Ok(())
}

#[test]
fn a_log_whose_sync_fails_is_not_noted(rt: HostRuntime) -> Result<(), Fail> {
    let heard = Heard::nothing();
    let mut log = Noting::log(Fuse::new(Memory::new(rt.alloc()), 2), &heard);
    log.write_at(1, &HEADER[1..])?;
    log.write_at(0, &HEADER[..1])?;
    assert!(rt; log.sync().is_err());
    assert_eq!(rt; heard.so_far(), (None, 0));
    Ok(())
}
