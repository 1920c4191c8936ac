//! Times as words. The seconds of a day are those that `date -u` of the GNU core utilities tells.
use crate::tests::asserting::same;
use command_texts::{Fault, first_moment, last_moment};

// Days, and the nanoseconds with which each begins and ends.
const DAYS: [(&str, u64, u64); 8] = [
    ("1970-01-01", 0, 86399999999999),
    ("1970-12-31", 31449600000000000, 31535999999999999),
    ("2000-02-29", 951782400000000000, 951868799999999999),
    ("2024-03-01", 1709251200000000000, 1709337599999999999),
    ("2026-11-24", 1795478400000000000, 1795564799999999999),
    ("2100-02-28", 4107456000000000000, 4107542399999999999),
    ("2100-03-01", 4107542400000000000, 4107628799999999999),
    ("2554-07-20", 18446572800000000000, 18446659199999999999),
];

#[test]
fn reads_days(rt: HostRuntime) {
    for (day, first, last) in DAYS {
        assert_eq!(rt; first_moment(day), Ok(first));
        assert_eq!(rt; last_moment(day), Ok(last));
    }
    assert_eq!(rt; first_moment("2554-07-21"), Ok(18446659200000000000));
    assert_eq!(rt; last_moment("2554-07-21"), Ok(u64::MAX));
    assert_eq!(rt; first_moment("9999-12-31"), Ok(u64::MAX));
}

#[test]
fn reads_nanoseconds(rt: HostRuntime) {
    for (text, moment) in [("0", 0), ("7", 7), ("18446744073709551615", u64::MAX)] {
        assert_eq!(rt; first_moment(text), Ok(moment));
        assert_eq!(rt; last_moment(text), Ok(moment));
    }
}

const NO_TIMES: [&str; 17] = [
    "",
    "-",
    "01",
    "+1",
    "1.5",
    "18446744073709551616",
    "1969-12-31",
    "2026-11-31",
    "2023-02-29",
    "2100-02-29",
    "2026-00-01",
    "2026-13-01",
    "2026-11-00",
    "2026-1-24",
    "2026/11/24",
    "2026-11-24T00",
    "\u{e4}026-11-2",
];

#[test]
fn refuses_other_words(rt: HostRuntime) {
    for text in NO_TIMES {
        same(&rt, text, first_moment(text), Err(Fault::BadTime));
        same(&rt, text, last_moment(text), Err(Fault::BadTime));
    }
}
