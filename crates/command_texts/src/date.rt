//! Days of the calendar, as the command line has them.
ghost use Rattle.std.specs.Prelude.{◌≡◌, ◌<◌, ◌≤◌, ◌+◌, ◌-◌, ◌↔◌, IsTrue, IfNone, IfSome, length};
ghost use Rattle.httpdate.specs.Calendar.{IsCivilDate, days_from_civil, days_in_month, days_of_months};
ghost use Rattle.httpdate.specs.Calendar.{is_leap_year};
ghost use Rattle.command_texts.specs.Dates.{IsDay, date_in, first_of_day, last_of_day, two_at};
ghost use Rattle.command_texts.specs.declared.date.Date.{Date as ADate};

const NANOS_PER_DAY: u128 = 86_400_000_000_000;

// From 1 January 1601, where 400 years begin that end in a leap year, to 1 January 1970.
const DAYS_1601_TO_1970: u32 = 134_774;

/// A day, by the Gregorian calendar.
#[derive(Clone, Copy, Debug, PartialEq, Eq)]
pub(crate) struct Date {
    pub year: u32,
    pub month: u32,
    pub day: u32,
}

fn is_leap_year(year: u32) -> bool
    ensures { result ≡ is_leap_year year }
{
    year % 4 == 0 && (year % 100 != 0 || year % 400 == 0)
}

fn days_in_month(year: u32, month: u32) -> u32
    ensures { result ≡ days_in_month year month }
{
    match month {
        2 => { if is_leap_year(year) { 29 } else { 28 } }
        4 | 6 | 9 | 11 => 30,
        _ => 31,
    }
}

// The days of a year before a month.
fn days_before_month(year: u32, month: u32) -> u32
    requires low { 1 ≤ month }
    requires high { month ≤ 12 }
    ensures value { result ≡ days_of_months year (month - 1) }
    ensures bound { result < 366 }
{
    const BEFORE: [u32; 12] = [0, 31, 59, 90, 120, 151, 181, 212, 243, 273, 304, 334];
    let leap_day = if month > 2 && is_leap_year(year) {
        1
    } else {
        0
    };
    BEFORE[month as usize - 1] + leap_day
}

// The number of the two digits at a place and the next.
#[tactic(auto, unfolding(crate::specs::Dates::two_at))]
fn two_at(text: &[u8], place: usize) -> Option<u32>
    requires { place + 1 < length text.now }
    ensures value { result ≡ two_at text.now place }
    ensures bound { IfSome result (λ n. n < 100) }
{
    let (tens, ones) = (text[place], text[place + 1]);
    if tens.is_ascii_digit() && ones.is_ascii_digit() {
        Some(u32::from(tens - b'0') * 10 + u32::from(ones - b'0'))
    } else {
        None
    }
}

impl Date {
    // The numbers of a text `YYYY-MM-DD`.
    #[tactic(auto, unfolding(crate::specs::Dates::date_in))]
    fn read(text: &[u8]) -> Option<Date>
        ensures { result ≡ date_in text.now }
    {
        if text.len() != 10 || text[4] != b'-' || text[7] != b'-' {
            return None;
        }
        let century = two_at(text, 0)?;
        let year = two_at(text, 2)?;
        let month = two_at(text, 5)?;
        let day = two_at(text, 8)?;
        Some(Date {
            year: century * 100 + year,
            month,
            day,
        })
    }

    fn is_civil(self) -> bool
        ensures { IsTrue result ↔ IsCivilDate self.year self.month self.day }
    {
        let known = 1970 <= self.year && self.year <= 9999 && 1 <= self.month && self.month <= 12;
        known && 1 <= self.day && self.day <= days_in_month(self.year, self.month)
    }

    /// The day of a text `YYYY-MM-DD`, from 1970 on.
    pub(crate) fn of(text: &[u8]) -> Option<Date>
        ensures some { IfSome result (IsDay text.now) }
        ensures none { IfNone result ((date : ADate) → ¬ IsDay text.now date) }
    {
        let date = Date::read(text)?;
        if date.is_civil() { Some(date) } else { None }
    }

    // The days from 1 January 1970 to the day.
    fn days(self) -> u32
        requires { IsCivilDate self.year self.month self.day }
        ensures value { result ≡ days_from_civil self.year self.month self.day }
        ensures bound { result < 2_932_897 }
    {
        let past = self.year - 1601;
        let since_1601 = past * 365 + past / 4 - past / 100 + past / 400;
        let before = days_before_month(self.year, self.month);
        since_1601 - DAYS_1601_TO_1970 + before + (self.day - 1)
    }

    /// Its first nanosecond of UTC since 1970, or the latest moment where it lies beyond that.
    pub(crate) fn first_nanosecond(self) -> u64
        requires { IsCivilDate self.year self.month self.day }
        ensures { result ≡ first_of_day self }
    {
        let first = u128::from(self.days()) * NANOS_PER_DAY;
        u64::try_from(first).unwrap_or(u64::MAX)
    }

    /// Its last, likewise.
    pub(crate) fn last_nanosecond(self) -> u64
        requires { IsCivilDate self.year self.month self.day }
        ensures { result ≡ last_of_day self }
    {
        let last = u128::from(self.days()) * NANOS_PER_DAY + (NANOS_PER_DAY - 1);
        u64::try_from(last).unwrap_or(u64::MAX)
    }
}
