//! Bodies that are judged and not booked.
use super::reading::{EVENTS, meant};
use ledger_http::Route;
use std::test::Fail;
use wire::{Read, Request};

#[test]
fn counts_the_events_of_what_is_judged(rt: HostRuntime) -> Result<(), Fail> {
    for route in [Route::LintAccounts, Route::LintTransfers] {
        for (body, want) in [(b"[]".as_slice(), 0), (EVENTS, 2)] {
            match meant(&rt, route, body)? {
                Request::Read(Read::Lint(events)) => assert_eq!(rt; events, want),
                _ => panic!(rt; "not judged"),
            }
        }
    }
    Ok(())
}
