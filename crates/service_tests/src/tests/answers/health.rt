//! Whether ledgers serve, which everybody is told.
use super::everybody::{are_all_told, everybody_is_told};
use super::failing::FrailFirms;
use super::messages::good;
use super::scripts::exchange;
use crate::tests::messages::UNAVAILABLE;
use std::alloc::Global;
use std::process::Abort;
use std::test::Fail;

/// Without a key, with a firm's key, with keys of nobody, with a body, and behind which another
/// message stands.
const ASKED: [&str; 5] = [
    "GET /health HTTP/1.1\r\nhost: 127.0.0.1:8080\r\n\r\n",
    concat!(
        "GET /health HTTP/1.1\r\nx-ledger-key: ",
        "0000000000000000000000000000000000000000000000000000000000000000\r\n\r\n"
    ),
    "GET /health HTTP/1.1\r\nx-ledger-key: 1\r\nx-ledger-key: 2\r\n\r\n",
    "GET /health HTTP/1.1\r\ncontent-length: 2\r\n\r\n[]",
    "GET /health HTTP/1.1\r\n\r\nGET /x HTTP/1.1\r\n\r\n",
];

/// Another method, and paths that are near.
const REFUSED: &str = "\
North POST /health => bad_method 405 Method Not Allowed
raw HEAD /health HTTP/1.1|| => length_required 411 Length Required
North GET /health/ => no_route 404 Not Found
North GET /health?x => no_route 404 Not Found";

/// What asks something of a tenant, by each route, and a body that is refused.
const OF_A_TENANT: &str = r#"North POST /accounts [] => unavailable 503 Service Unavailable
North POST /transfers [] => unavailable 503 Service Unavailable
North POST /accounts/lookup [] => unavailable 503 Service Unavailable
North POST /transfers/lookup [] => unavailable 503 Service Unavailable
North POST /history/transfers {"account_id":"1","limit":1} => unavailable 503 Service Unavailable
North POST /history/balances {"account_id":"1","limit":1} => unavailable 503 Service Unavailable
North POST /query/accounts {"limit":1} => unavailable 503 Service Unavailable
North POST /query/transfers {"limit":1} => unavailable 503 Service Unavailable
North POST /pending/lookup [] => unavailable 503 Service Unavailable
North POST /pending/open {"limit":1} => unavailable 503 Service Unavailable
North POST /lint/accounts [] => unavailable 503 Service Unavailable
North POST /lint/transfers [] => unavailable 503 Service Unavailable
North GET /statement/1 => unavailable 503 Service Unavailable
North POST /transfers no list => unavailable 503 Service Unavailable"#;

/// Looks at what ledgers tell that have failed.
fn tell(rt: &impl Abort, alloc: Global, script: &str) -> Result<(), Fail> {
    let mut firms = FrailFirms::failed(alloc);
    for line in script.lines() {
        exchange(rt, alloc, &mut firms, line)?;
    }
    Ok(())
}

#[test]
fn tells_health_to_everybody(rt: HostRuntime) -> Result<(), Fail> {
    let want = good(rt.alloc(), "{\"serving\":true}")?;
    everybody_is_told(&rt, rt.alloc(), &ASKED, &want)
}

#[test]
fn tells_that_ledgers_have_failed(rt: HostRuntime) -> Result<(), Fail> {
    are_all_told(
        &rt,
        rt.alloc(),
        &mut FrailFirms::failed(rt.alloc()),
        (&ASKED, 0),
        UNAVAILABLE.as_bytes(),
    );
    tell(&rt, rt.alloc(), OF_A_TENANT)
}

#[test]
fn refuses_what_is_near_health(rt: HostRuntime) -> Result<(), Fail> {
    tell(&rt, rt.alloc(), REFUSED)
}
