//! The texts on real tables, in memory and in files, and the shapes of schemas.

mod acts;
mod any_file;
mod calls;
mod entries;
mod finds;
mod grown;
mod lists;
mod many;
mod places;
mod runs;
mod sample;
mod scenarios;
mod shapes;
mod spanned;
mod spans;
mod statements;
mod unclaimed;

use grown::GROWN;
use runs::run_all;
use scenarios::SCENARIOS;
use spanned::SPANNED;
use std::test::Fail;

#[test]
fn texts_read_and_write_real_tables(rt: HostRuntime) -> Result<(), Fail> {
    run_all(&rt, &rt, "scenarios", &SCENARIOS)
}

#[test]
fn rows_of_a_span_of_time_come_from_either_end(rt: HostRuntime) -> Result<(), Fail> {
    run_all(&rt, &rt, "spanned", SPANNED)
}

#[test]
fn a_text_by_key_takes_as_long_over_many_rows(rt: HostRuntime) -> Result<(), Fail> {
    run_all(&rt, &rt, "grown", GROWN)
}
