use crate::{LogFound, LogNoted, Noted, Opening, Record, Sums, is_behind, opening_of};
use std::alloc::Global;
use std::test::Fail;

// The parts of a FILE-sums, as another program with its own SipHash-1-3 makes them.
const WHOLE: [&[u8]; 8] = [
    // a head with pages of 4096 bytes and the key 5
    b"LDGRSUMS\x01\x00\x00\x00\x00\x10\x00\x00\x05\x00\x00\x00\x00\x00\x00\x00\xa1\x2b\xbd\xc5F\x8ctt",
    // the log 0x0102030405060708 is in use
    b"\x02\x00\x00\x00\x08\x00\x00\x00\x08\x07\x06\x05\x04\x03\x02\x01Q\xb8\x21t\x04\xd9\xb3\x82",
    // a mark
    b"\x04\x00\x00\x00\x08\x00\x00\x005\xe9\xea\xcf\x23\x93\xeb\x18\xdcx\x5e\xaa\x22r\x93\x10",
    // no log
    b"\x03\x00\x00\x00\x00\x00\x00\x00tK7\x2f\xf9\xf5\x1dw",
    // a later mark
    b"\x04\x00\x00\x00\x08\x00\x00\x004z\x1c\xd4\x23\x93\xeb\x18\x1c\x83\x0es\xce\xfd\x29\x1c",
    // the log 9
    b"\x02\x00\x00\x00\x08\x00\x00\x00\x09\x00\x00\x00\x00\x00\x00\x00q\x0c\x90\x90\xfaVU\xfb",
    // an earlier mark
    b"\x04\x00\x00\x00\x08\x00\x00\x00\x00\xd4\x93\xb4\x23\x93\xeb\x18\xc5\x09\x01I\x87z\x14\xb0",
    // pages
    b"\x01\x00\x00\x00\x00\x00\x00\x00\x9d\x88\x07\xb0\x08\x1f\xbb\x20",
];

const EARLIER: u64 = 1_795_690_658_458_691_893;

const LATER: u64 = 1_795_690_658_529_049_140;

const ENTRIES: [Record; 7] = [
    Record::Log(0x0102_0304_0506_0708),
    Record::Mark(EARLIER),
    Record::NoLog,
    Record::Mark(LATER),
    Record::Log(9),
    Record::Mark(1_795_690_658_000_000_000),
    Record::Pages,
];

// What is noted behind the head, and behind each record.
const STEPS: [(LogNoted, u64); 8] = [
    (LogNoted::Unnamed, 0),
    (LogNoted::InUse(0x0102_0304_0506_0708), 0),
    (LogNoted::InUse(0x0102_0304_0506_0708), EARLIER),
    (LogNoted::Done(0x0102_0304_0506_0708), EARLIER),
    (LogNoted::Done(0x0102_0304_0506_0708), LATER),
    (LogNoted::InUse(9), LATER),
    (LogNoted::InUse(9), LATER),
    (LogNoted::Done(9), LATER),
];

// Where the head ends, and each record.
const ENDS: [usize; 8] = [32, 56, 80, 96, 120, 144, 168, 184];

fn whole(alloc: Global) -> Result<Vec<u8>, Fail> {
    let mut all = Vec::new(alloc);
    for part in WHOLE {
        all.extend_from_slice(part)?;
    }
    Ok(all)
}

#[test]
fn it_is_written_as_another_program_writes_it(rt: HostRuntime) -> Result<(), Fail> {
    let alloc = rt.alloc();
    let (mut sums, head) = Sums::begin(alloc, 4096, 5)?;
    assert_eq!(rt; head.as_slice(), WHOLE[0]);
    assert_eq!(rt; sums.page_size(), 4096);
    for (i, entry) in ENTRIES.iter().enumerate() {
        let bytes = sums.append(alloc, *entry)?;
        let part = WHOLE.get(i + 1).copied().ok_or("a part")?;
        assert_eq!(rt; bytes.as_slice(), part, "record {i}");
    }
    Ok(())
}

#[test]
fn what_is_whole_is_read_wherever_it_is_cut(rt: HostRuntime) -> Result<(), Fail> {
    let all = whole(rt.alloc())?;
    for (cut, _) in all.iter().enumerate() {
        let held = ENDS.iter().filter(|end| **end <= cut).count();
        let Some((sums, len)) = Sums::read(&all[..cut]) else {
            assert_eq!(rt; held, 0, "cut to {cut}");
            continue;
        };
        let last = held.checked_sub(1).ok_or("no head")?;
        assert_eq!(rt; ENDS.get(last).copied(), Some(len), "cut to {cut}");
        let (log, mark) = STEPS.get(last).copied().ok_or("a step")?;
        let noted = Noted {
            log,
            mark,
            has_doubt: false,
        };
        assert_eq!(rt; sums.noted(), noted, "cut to {cut}");
    }
    Ok(())
}

#[test]
fn what_stands_behind_a_changed_byte_is_not_read(rt: HostRuntime) -> Result<(), Fail> {
    let mut all = whole(rt.alloc())?;
    for at in 0..all.len() {
        let was = all[at];
        all[at] = was ^ 1;
        let read = Sums::read(&all);
        if at < 32 {
            assert!(rt; read.is_none(), "at {at}");
        } else {
            let (_sums, len) = read.ok_or("a head")?;
            assert!(rt; len <= at, "at {at}");
        }
        all[at] = was;
    }
    Ok(())
}

#[test]
fn records_are_appended_to_what_was_read(rt: HostRuntime) -> Result<(), Fail> {
    let alloc = rt.alloc();
    let mut all = whole(alloc)?;
    let (mut sums, len) = Sums::read(all.get(..150).ok_or("bytes")?).ok_or("a head")?;
    all.truncate(len);
    let more = sums.append(alloc, Record::Doubt(3))?;
    all.extend_from_slice(&more)?;
    let (read, end) = Sums::read(&all).ok_or("a head")?;
    assert_eq!(rt; end, all.len());
    assert_eq!(rt; read, sums);
    assert!(rt; read.noted().has_doubt);
    assert_eq!(rt;
        opening_of(&read.noted(), LogFound::Filled(9), true),
        Opening::Full
    );
    Ok(())
}

#[test]
fn an_opening_goes_by_the_table(rt: HostRuntime) {
    let in_use = Noted {
        log: LogNoted::InUse(9),
        mark: 5,
        has_doubt: false,
    };
    let found = [
        LogFound::Unsigned,
        LogFound::Short(9),
        LogFound::Short(8),
        LogFound::Empty(9),
        LogFound::Empty(8),
        LogFound::Filled(9),
        LogFound::Filled(8),
    ];
    let no_log = Opening::Trusted(Some(Record::NoLog));
    let as_it_is = Opening::Trusted(None);
    let used = [
        Opening::Full,
        no_log,
        Opening::Full,
        as_it_is,
        Opening::Full,
        as_it_is,
        Opening::Full,
    ];
    let named_9 = Opening::Trusted(Some(Record::Log(9)));
    let named_8 = Opening::Trusted(Some(Record::Log(8)));
    let done = [
        no_log,
        no_log,
        no_log,
        named_9,
        named_8,
        named_9,
        Opening::Full,
    ];
    let is_done = Noted {
        log: LogNoted::Done(9),
        ..in_use
    };
    for i in 0..7 {
        assert_eq!(rt; opening_of(&in_use, found[i], true), used[i], "in use, {i}");
        assert_eq!(rt; opening_of(&is_done, found[i], true), done[i], "done, {i}");
        assert_eq!(rt;
            opening_of(&is_done, found[i], false),
            Opening::Full,
            "unknown, {i}"
        );
        assert_eq!(rt;
            opening_of(&Noted::new(), found[i], true),
            Opening::Full,
            "unnamed, {i}"
        );
    }
    assert!(rt; is_behind(&in_use, 4));
    assert!(rt; !is_behind(&in_use, 5));
    assert!(rt; !is_behind(&Noted::new(), 0));
}
