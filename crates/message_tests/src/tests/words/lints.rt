//! Bodies judged as the service judges them.
use crate::tests::asserting::same;
use command_texts::{Fault, lint};
use records::Streamed;
use std::test::Fail;

// Bodies that are refused on a route, and what is told of them.
const BAD: [(&str, &str, &str); 20] = [
    ("/transfers", "[{}", "not JSON"),
    ("/transfers", "{}", "not a list"),
    ("/transfers", "[{},1]", "event 2: not an object"),
    (
        "/transfers",
        r#"[{},{"ammount":"1"},1]"#,
        "event 2: ammount: a field that nobody knows",
    ),
    (
        "/transfers",
        r#"[{"amount":10}]"#,
        "event 1: amount: not a string of decimal digits, with no zero in front, below 2^128",
    ),
    (
        "/transfers",
        r#"[{"timestamp":"18446744073709551616"}]"#,
        "event 1: timestamp: not a string of decimal digits, with no zero in front, below 2^64",
    ),
    (
        "/transfers",
        r#"[{"timeout":"60"}]"#,
        "event 1: timeout: not a whole number below 4294967296",
    ),
    (
        "/transfers",
        r#"[{"flags":["pending"]}]"#,
        "event 1: flags: not a whole number below 65536",
    ),
    (
        "/accounts",
        r#"[{"amount":"1"}]"#,
        "event 1: amount: a field that nobody knows",
    ),
    (
        "/accounts",
        r#"[{},{},{"credits_posted":1}]"#,
        "event 3: credits_posted: not a string of decimal digits, with no zero in front, below 2^128",
    ),
    (
        "/accounts/lookup",
        r#"["1","01"]"#,
        "id 2: not a string of decimal digits, with no zero in front, below 2^128",
    ),
    ("/transfers/lookup", r#"{"ids":["1"]}"#, "not a list"),
    (
        "/pending/lookup",
        "[1]",
        "id 1: not a string of decimal digits, with no zero in front, below 2^128",
    ),
    ("/history/transfers", "[]", "not an object"),
    (
        "/history/transfers",
        r#"{"account_id":"1"}"#,
        "limit: not a whole number from 1 to 1,000",
    ),
    (
        "/history/balances",
        r#"{"limit":1,"flags":8}"#,
        "flags: not a whole number below 8",
    ),
    (
        "/query/accounts",
        r#"{"limit":1,"flags":2}"#,
        "flags: not a whole number below 2",
    ),
    (
        "/query/transfers",
        r#"{"limit":1,"code":-1}"#,
        "code: not a whole number below 65536",
    ),
    (
        "/pending/open",
        r#"{"limit":1001}"#,
        "limit: not a whole number from 1 to 1,000",
    ),
    (
        "/pending/open",
        r#"{"limit":1,"ledger":7}"#,
        "ledger: a field that nobody knows",
    ),
];

#[test]
fn tells_what_is_refused(rt: HostRuntime) -> Result<(), Fail> {
    for (path, body, line) in BAD {
        let (status, told) = linted(&rt, path, body)?;
        let want = format!(in rt.alloc(); "{line}\n")?;
        same(&rt, body, (status, told.as_slice()), (1, want.as_bytes()));
    }
    Ok(())
}

const GOOD: [(&str, &str); 6] = [
    ("/transfers", r#"[{"id":"1","amount":"10","ledger":978}]"#),
    ("/accounts", "[]"),
    ("/transfers/lookup", r#"["1"]"#),
    ("/history/balances", r#"{"account_id":"1","limit":1000}"#),
    ("/query/transfers", r#"{"limit":1}"#),
    ("/lint/transfers", r#"[{"id":"1"}]"#),
];

#[test]
fn takes_what_the_service_takes(rt: HostRuntime) -> Result<(), Fail> {
    for (path, body) in GOOD {
        let (status, told) = linted(&rt, path, body)?;
        same(
            &rt,
            body,
            (status, told.as_slice()),
            (0, b"ok\n".as_slice()),
        );
    }
    Ok(())
}

#[test]
fn tells_too_many(rt: HostRuntime) -> Result<(), Fail> {
    let mut body = String::from_str(rt.alloc(), "[{}")?;
    for _ in 0..1000 {
        body.push_str(",{}")?;
    }
    body.push_str("]")?;
    let (status, told) = linted(&rt, "/transfers", body.as_str())?;
    assert_eq!(rt; status, 1);
    assert_eq!(rt;
        told.as_slice(),
        b"more than 1,000 events or ids\n".as_slice()
    );
    Ok(())
}

#[test]
fn knows_the_routes_of_bodies(rt: HostRuntime) {
    for path in [
        "",
        "/",
        "transfers",
        "/transfers/",
        "/statement/1",
        "/health",
    ] {
        let mut out = Streamed::new(Vec::new(rt.alloc()));
        same(
            &rt,
            path,
            lint(rt.alloc(), path, b"[]", &mut out),
            Err(Fault::BadRoute),
        );
    }
}

// The status, and what is told.
fn linted(rt: &HostRuntime, path: &str, body: &str) -> Result<(u8, Vec<u8>), Fail> {
    let mut out = Streamed::new(Vec::new(rt.alloc()));
    match lint(rt.alloc(), path, body.as_bytes(), &mut out) {
        Ok(status) => Ok((status, out.into_inner())),
        Err(_) => Err(Fail::new(format_args!("a fault: {body}"))),
    }
}
