//! The entries of an account.

ghost use Rattle.std.specs.Prelude.{◌≡◌, None, false, is_some};

use super::acts::Asked;
use super::unclaimed::{Unclaimed, claims_nothing};
use ledger_sql::{EntryCells, EntrySink, entries};
use records::Unavailable;
use sqlite::Connection;
use std::alloc::Global;

/// Takes the times of the first two entries.
#[derive(Drop)]
struct FirstTwo {
    first: Option<i64>,
    second: Option<i64>,
}

impl EntrySink for FirstTwo {
    ghost takes = { λ _ _ _. Unit {0} };

    ghost is_full = { λ two. is_some two.second };

    fn entry(&mut self, entry: &EntryCells) -> bool {
        let time = Some(entry.history.timestamp);
        if self.first.is_none() {
            self.first = time;
            return true;
        }
        self.second = time;
        false
    }
}

/// Whether the first two entries have these times.
pub fn tells_two<S: Unclaimed>(
    conn: &mut Connection<S>,
    asked: &Asked,
    times: &(Option<i64>, Option<i64>),
) -> Result<bool, Unavailable> {
    let mut two = FirstTwo {
        first: None,
        second: None,
    };
    take_two(conn, asked, &mut two)?;
    Ok((two.first, two.second) == *times)
}

fn take_two<S: Unclaimed>(
    conn: &mut Connection<S>,
    asked: &Asked,
    two: &mut FirstTwo,
) -> Result<(), Unavailable>
    requires { two.old.second ≡ None }
{
    claims_nothing(conn);
    match asked {
        Asked::From(account, time) => {
            entries::first_entries_from(conn, 1, *account, *time, u32::MAX, two)
        }
        Asked::Until(account, time) => {
            entries::first_entries_until(conn, 1, *account, *time, u32::MAX, two)
        }
    }
}

/// Takes the times of all entries that memory has room for, with the last bytes of their transfers'
/// ids.
#[derive(Drop)]
struct Taken {
    entries: Vec<(i64, u8)>,
    is_out_of_memory: bool,
}

impl Taken {
    fn new(alloc: Global) -> Taken
        ensures { result.is_out_of_memory ≡ false }
    {
        Taken {
            entries: Vec::new(alloc),
            is_out_of_memory: false,
        }
    }

    fn have_times(&self, times: &[i64]) -> bool {
        for (entry, time) in self.entries.iter().zip(times) {
            if entry.0 != *time {
                return false;
            }
        }
        self.entries.len() == times.len()
    }
}

impl EntrySink for Taken {
    ghost takes = { λ _ _ _. Unit {0} };

    ghost is_full = { λ taken. taken.is_out_of_memory };

    fn entry(&mut self, entry: &EntryCells) -> bool {
        let told = (entry.history.timestamp, entry.transfer.id[15]);
        self.is_out_of_memory = self.entries.push(told).is_err();
        !self.is_out_of_memory
    }
}

/// Whether the first entries, so many at most, have these times.
pub fn tells_page<S: Unclaimed>(
    alloc: Global,
    conn: &mut Connection<S>,
    asked: &Asked,
    count: u32,
    times: &[i64],
) -> Result<bool, Unavailable> {
    let mut taken = Taken::new(alloc);
    take_page(conn, asked, count, &mut taken)?;
    Ok(taken.have_times(times))
}

fn take_page<S: Unclaimed>(
    conn: &mut Connection<S>,
    asked: &Asked,
    count: u32,
    taken: &mut Taken,
) -> Result<(), Unavailable>
    requires { taken.old.is_out_of_memory ≡ false }
{
    claims_nothing(conn);
    match asked {
        Asked::From(account, time) => {
            entries::first_entries_from(conn, 1, *account, *time, count, taken)
        }
        Asked::Until(account, time) => {
            entries::first_entries_until(conn, 1, *account, *time, count, taken)
        }
    }
}

/// Whether the entries have these times, and these last bytes of their transfers' ids.
pub fn tells<S: Unclaimed>(
    alloc: Global,
    conn: &mut Connection<S>,
    asked: &Asked,
    told: &[(i64, u8)],
) -> Result<bool, Unavailable> {
    let mut taken = Taken::new(alloc);
    take_page(conn, asked, u32::MAX, &mut taken)?;
    Ok(taken.entries.as_slice() == told)
}
