//! Replies that say where a body is refused.
use crate::tests::asserting::same;
use ledger_http::{Asked, Refusal, Route};
use std::alloc::{AllocError, Global};
use std::process::Abort;
use std::test::Fail;
use tenants::Key;
use wire::refused_reply;

/// A name of 64 bytes, and one of 65.
const LONG: [&str; 2] = [
    "0123456789012345678901234567890123456789012345678901234567890123",
    "01234567890123456789012345678901234567890123456789012345678901234",
];

/// Bodies that are refused on a route, and the bodies of the replies that say where.
const REFUSED: [(Route, &str, Refusal, &str); 14] = [
    (
        Route::Transfers,
        "[{}",
        Refusal::BodyNotJson,
        r#"{"error":"body_not_json","want":"JSON"}"#,
    ),
    (
        Route::Transfers,
        "{}",
        Refusal::BadField,
        r#"{"error":"bad_field","want":"a list"}"#,
    ),
    (
        Route::Transfers,
        "[{},1]",
        Refusal::BadField,
        r#"{"error":"bad_field","event":2,"want":"an object"}"#,
    ),
    (
        Route::Transfers,
        r#"[{},{"a\"b":"1","amount":1},1]"#,
        Refusal::BadField,
        r#"{"error":"bad_field","event":2,"field":"a\"b","want":"known fields only"}"#,
    ),
    (
        Route::Accounts,
        r#"[{"id":1,"code":"1"}]"#,
        Refusal::BadField,
        r#"{"error":"bad_field","event":1,"field":"code","want":"a whole number below 65536"}"#,
    ),
    (
        Route::Accounts,
        r#"[{"timestamp":0}]"#,
        Refusal::BadField,
        concat!(
            r#"{"error":"bad_field","event":1,"field":"timestamp","#,
            r#""want":"a string of decimal digits, with no zero in front, below 2^64"}"#
        ),
    ),
    (
        Route::LookupPending,
        r#"["1","01"]"#,
        Refusal::BadField,
        concat!(
            r#"{"error":"bad_field","event":2,"#,
            r#""want":"a string of decimal digits, with no zero in front, below 2^128"}"#
        ),
    ),
    (
        Route::HistoryBalances,
        "[]",
        Refusal::BadField,
        r#"{"error":"bad_field","want":"an object"}"#,
    ),
    (
        Route::HistoryTransfers,
        r#"{"account_id":"1"}"#,
        Refusal::BadField,
        r#"{"error":"bad_field","field":"limit","want":"a whole number from 1 to 1,000"}"#,
    ),
    (
        Route::QueryAccounts,
        r#"{"limit":1,"flags":2,"code":-1}"#,
        Refusal::BadField,
        r#"{"error":"bad_field","field":"code","want":"a whole number below 65536"}"#,
    ),
    (
        Route::LintAccounts,
        r#"[{},{"code":65536}]"#,
        Refusal::BadField,
        r#"{"error":"bad_field","event":2,"field":"code","want":"a whole number below 65536"}"#,
    ),
    (
        Route::LintTransfers,
        r#"[{"credits_posted":"0"}]"#,
        Refusal::BadField,
        r#"{"error":"bad_field","event":1,"field":"credits_posted","want":"known fields only"}"#,
    ),
    // Where a path is at fault, and not the body, the reply says nothing more.
    (
        Route::Statement,
        "",
        Refusal::BadField,
        r#"{"error":"bad_field"}"#,
    ),
    // Nor where memory was lacking.
    (
        Route::Transfers,
        "{}",
        Refusal::Unavailable,
        r#"{"error":"unavailable"}"#,
    ),
];

#[test]
fn says_where_a_body_is_refused(rt: HostRuntime) -> Result<(), Fail> {
    for (route, body, refusal, want) in REFUSED {
        is_told(&rt, &question(&rt, route, body, true), refusal, want)?;
    }
    Ok(())
}

#[test]
fn says_nothing_more_unless_it_is_asked(rt: HostRuntime) -> Result<(), Fail> {
    for (route, body, refusal, _) in REFUSED {
        let reply = refused_reply(rt.alloc(), &question(&rt, route, body, false), refusal);
        same(&rt, body, reply.bytes(), refusal.reply().as_bytes());
    }
    Ok(())
}

#[test]
fn leaves_a_long_name_out(rt: HostRuntime) -> Result<(), Fail> {
    for name in LONG {
        let body = format!(in rt.alloc(); "{{\"limit\":1,\"{name}\":1}}")?;
        let field = if name.len() > 64 {
            String::new(rt.alloc())
        } else {
            format!(in rt.alloc(); "\"field\":\"{name}\",")?
        };
        let want = format!(in rt.alloc();
            "{{\"error\":\"bad_field\",{field}\"want\":\"known fields only\"}}"
        )?;
        let asked = question(&rt, Route::OpenPending, body.as_str(), true);
        is_told(&rt, &asked, Refusal::BadField, want.as_str())?;
    }
    Ok(())
}

// 1,001 ids are too many, unless one of them is none.
#[test]
fn says_that_a_list_is_too_long(rt: HostRuntime) -> Result<(), Fail> {
    let mut body = String::from_str(rt.alloc(), "[\"1\"")?;
    for _ in 0..1000 {
        body.push_str(",\"1\"")?;
    }
    body.push_str("]")?;
    let asked = question(&rt, Route::LookupAccounts, body.as_str(), true);
    let want = r#"{"error":"too_many_events","want":"at most 1,000 events or ids"}"#;
    is_told(&rt, &asked, Refusal::TooManyEvents, want)
}

fn question<'a>(rt: &impl Abort, route: Route, body: &'a str, detail: bool) -> Asked<'a> {
    Asked {
        route,
        account: "",
        key: Key::read(&[b'0'; 64]).expect(rt, "64 digits are a key"),
        detail,
        body: body.as_bytes(),
    }
}

// A reply with the refusal's status and this body.
fn is_told<R: Abort + AllocGlobal>(
    rt: &R,
    asked: &Asked<'_>,
    refusal: Refusal,
    body: &str,
) -> Result<(), Fail> {
    let reply = refused_reply(rt.alloc(), asked, refusal);
    let want = whole(rt.alloc(), refusal, body)?;
    same(rt, body, reply.bytes(), want.as_slice());
    Ok(())
}

fn whole(alloc: Global, refusal: Refusal, body: &str) -> Result<Vec<u8>, AllocError> {
    let status = refusal.status();
    let length = body.len();
    let text = format!(in alloc;
        "HTTP/1.1 {status}\r\ncontent-length: {length}\r\ncontent-type: application/json\r\n\r\n{body}"
    )?;
    Ok(text.into_bytes())
}
