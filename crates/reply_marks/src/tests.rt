use crate::pace::Pace;
use crate::{Marks, clock_in, forget_beside, latest_told, mark_clock, mark_reply, noted_beside};
use file_sums::{LogNoted, Noted, Record, Sums};
use kept_sums::{Access, KeptSums, Place, make_beside, read_beside};
use std::test::Fail;
use std::time::{Clock, Duration};
use std::{fs, io};

// The reply that docs/MESSAGES.md has.
const REPLY: &[u8] =
    b"HTTP/1.1 200 OK\r\ncontent-length: 68\r\ncontent-type: application/json\r\n\r\n\
    {\"clock\":\"3\",\"results\":[{\"number\":0,\"result\":\"ok\",\"timestamp\":\"3\"}]}";

const LATER: &[u8] =
    b"HTTP/1.1 200 OK\r\ncontent-length: 44\r\ncontent-type: application/json\r\n\r\n\
    {\"clock\":\"1795690658529049140\",\"results\":[]}";

const REFUSED: &[u8] =
    b"HTTP/1.1 503 Service Unavailable\r\ncontent-length: 23\r\ncontent-type: application/json\r\n\r\n\
    {\"error\":\"unavailable\"}";

#[test]
fn the_clock_of_a_batch_is_found(rt: HostRuntime) {
    assert_eq!(rt; clock_in(REPLY), Some(3));
    assert_eq!(rt; clock_in(LATER), Some(1_795_690_658_529_049_140));
    assert_eq!(rt; clock_in(REFUSED), None);
    assert_eq!(rt;
        clock_in(b"{\"clock\":\"18446744073709551615\"}"),
        Some(u64::MAX)
    );
    assert_eq!(rt; clock_in(b"{\"clock\":\"18446744073709551616\"}"), None);
    assert_eq!(rt; clock_in(b"{\"clock\":\"03\"}"), None);
    assert_eq!(rt; clock_in(b"{\"clock\":\"3"), None);
    assert_eq!(rt; clock_in(b"{\"accounts\":[],\"clock\":\"3\"}"), None);
    assert_eq!(rt; clock_in(b""), None);
    assert_eq!(rt; latest_told(2, REPLY), 3);
    assert_eq!(rt; latest_told(4, REPLY), 4);
    assert_eq!(rt; latest_told(4, REFUSED), 4);
}

// A file that is not looked at, and may be full.
#[derive(Drop)]
struct Unread {
    is_full: bool,
}

impl Place for Unread {
    ghost use Rattle.std.specs.Prelude.{None};

    ghost bytes = { λ _. None };

    fn write_part(&mut self, _at: u64, _part: &[u8]) -> io::Result<()> {
        if self.is_full {
            Err(io::ErrorKind::StorageFull.into())
        } else {
            Ok(())
        }
    }

    fn sync(&mut self) -> io::Result<()> {
        Ok(())
    }
}

#[test]
fn only_a_later_clock_is_marked(rt: HostRuntime) -> Result<(), Fail> {
    let alloc = rt.alloc();
    let (sums, head) = Sums::begin(alloc, 0, 5)?;
    let mut kept = KeptSums::begin(Unread { is_full: false }, sums, &head)?;
    assert!(rt; mark_reply(&mut kept, alloc, REPLY)?);
    assert!(rt; !mark_reply(&mut kept, alloc, REPLY)?);
    assert!(rt; !mark_reply(&mut kept, alloc, REFUSED)?);
    assert!(rt; !mark_clock(&mut kept, alloc, 3)?);
    assert!(rt; mark_clock(&mut kept, alloc, 4)?);
    assert_eq!(rt; kept.noted().mark, 4);
    assert_eq!(rt; kept.len(), 80);

    let (sums, head) = Sums::begin(alloc, 0, 5)?;
    let mut kept = KeptSums::over(Unread { is_full: true }, sums, head.len() as u64);
    assert!(rt; mark_reply(&mut kept, alloc, LATER).is_err());
    assert_eq!(rt; kept.noted().mark, 0);
    Ok(())
}

const FOLDER: &str = "reply_marks_test";

const PATH: &str = "reply_marks_test/a.db";

#[test]
fn a_mark_is_found_by_the_next_opening(rt: HostRuntime) -> Result<(), Fail> {
    let _ = fs::remove_dir_all(&rt, FOLDER);
    fs::create_dir(&rt, FOLDER)?;
    fs::write(&rt, PATH, b"".as_slice())?;
    let access = Access {
        rt: &rt,
        path: PATH,
    };
    let marks = Marks::new(&rt);
    marks.note(REPLY);
    let found = marks.find(PATH)?;
    assert_eq!(rt; found.noted, Noted::new());
    marks.begin(PATH, found, 2);
    let noted = |mark| Noted {
        log: LogNoted::Unnamed,
        mark,
        has_doubt: false,
    };
    assert_eq!(rt; read_beside(&access)?, Some(noted(2)));
    marks.note(REPLY);
    assert_eq!(rt; read_beside(&access)?, Some(noted(3)));
    marks.note(LATER);
    marks.note(REPLY);
    marks.note(REFUSED);
    let last = noted(1_795_690_658_529_049_140);
    assert_eq!(rt; read_beside(&access)?, Some(last));

    // Another process has to wait for it.
    assert!(rt; Marks::new(&rt).find(PATH).is_err());
    marks.end();
    let next = Marks::new(&rt);
    let found = next.find(PATH)?;
    assert_eq!(rt; found.noted, last);
    next.begin(PATH, found, last.mark);
    assert_eq!(rt; read_beside(&access)?, Some(last));
    next.end();
    assert_eq!(rt; noted_beside(&rt, PATH), last);
    forget_beside(&rt, PATH)?;
    assert_eq!(rt; noted_beside(&rt, PATH), Noted::new());
    fs::remove_dir_all(&rt, FOLDER)?;
    Ok(())
}

// Waits for a second, and longer where the machine is busy.
fn catches_up(marks: &Marks<'_>, access: &Access<'_>, wanted: Noted) -> Result<bool, Fail> {
    let rt = access.rt;
    let began = rt.monotonic()?;
    for _ in 0..u64::MAX {
        marks.catch_up();
        if read_beside(access)? == Some(wanted) {
            return Ok(true);
        }
        let now = rt.monotonic()?;
        if now.saturating_sub(began) > Duration::from_secs(30) {
            return Ok(false);
        }
    }
    Ok(false)
}

#[test]
fn what_could_not_be_made_is_made_later(rt: HostRuntime) -> Result<(), Fail> {
    const FOLDER: &str = "reply_marks_later";
    const PATH: &str = "reply_marks_later/a.db";
    const SUMS: &str = "reply_marks_later/a.db-sums";
    const INNER: &str = "reply_marks_later/a.db-sums/inner";
    let _ = fs::remove_dir_all(&rt, FOLDER);
    fs::create_dir(&rt, FOLDER)?;
    fs::write(&rt, PATH, b"".as_slice())?;
    fs::create_dir(&rt, SUMS)?;
    fs::create_dir(&rt, INNER)?;
    let access = Access {
        rt: &rt,
        path: PATH,
    };
    let marks = Marks::new(&rt);
    let found = marks.find(PATH)?;
    assert_eq!(rt; found.noted, Noted::new());
    marks.begin(PATH, found, 2);
    marks.note(REPLY);
    marks.catch_up();
    assert_eq!(rt; read_beside(&access)?, None);
    // Nothing is left of what was tried.
    assert_eq!(rt; fs::read_dir(&rt, FOLDER)?.count(), 2);
    fs::remove_dir_all(&rt, SUMS)?;
    let noted = Noted {
        log: LogNoted::Unnamed,
        mark: 3,
        has_doubt: false,
    };
    assert!(rt; catches_up(&marks, &access, noted)?);
    marks.end();
    fs::remove_dir_all(&rt, FOLDER)?;
    Ok(())
}

#[test]
fn what_was_put_off_is_marked_at_the_end(rt: HostRuntime) -> Result<(), Fail> {
    const FOLDER: &str = "reply_marks_end";
    const PATH: &str = "reply_marks_end/a.db";
    let _ = fs::remove_dir_all(&rt, FOLDER);
    fs::create_dir(&rt, FOLDER)?;
    fs::write(&rt, PATH, b"".as_slice())?;
    let marks = Marks::new(&rt);
    let found = marks.find(PATH)?;
    marks.begin(PATH, found, 2);
    marks.end();
    let found = marks.find(PATH)?;
    assert_eq!(rt; found.noted.mark, 2);
    // A ledger that was served without marks has a later clock.
    marks.begin(PATH, found, 5);
    marks.note(REPLY);
    marks.end();
    assert_eq!(rt; noted_beside(&rt, PATH).mark, 5);
    fs::remove_dir_all(&rt, FOLDER)?;
    Ok(())
}

#[test]
fn a_slow_volume_has_a_mark_ten_times_a_second(rt: HostRuntime) {
    let at = Duration::from_micros;
    let mut pace = Pace::new();
    assert!(rt; !pace.rests(at(0)));
    // One slow append may be the machine's doing.
    pace.took(at(1_000), at(1_300));
    assert!(rt; !pace.rests(at(1_301)));
    pace.took(at(2_000), at(2_001));
    pace.took(at(3_000), at(3_300));
    assert!(rt; !pace.rests(at(3_301)));
    pace.took(at(4_000), at(4_300));
    assert!(rt; pace.rests(at(4_300)));
    assert!(rt; pace.rests(at(104_299)));
    assert!(rt; !pace.rests(at(104_300)));
    pace.failed(at(200_000));
    assert!(rt; pace.rests(at(1_199_999)));
    assert!(rt; !pace.rests(at(1_200_000)));
}
