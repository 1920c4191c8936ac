use super::sample::{KEY, message, refusal_of, refused};
use crate::tests::asserting::holds;
use ledger_http::{Early, Refusal, Route, asked};
use std::alloc::AllocError;
use tenants::Key;

#[test]
fn refuses_in_order(rt: HostRuntime) -> Result<(), AllocError> {
    for (line, headers, body, refusal) in refused() {
        let text = message(&rt, line, headers, body)?;
        let told = refusal_of(&rt, text.as_bytes());
        holds(&rt, text.as_str(), told == Some(*refusal));
    }
    Ok(())
}

// Bytes that are no parts of a message, and why they are refused.
const ODD: [(&[u8], Refusal); 9] = [
    (b"", Refusal::Truncated),
    (b"\r\n\r\n", Refusal::BadHead),
    (b"garbage", Refusal::Truncated),
    (b"garbage\r\n\r\n", Refusal::BadHead),
    (b"GET /statement/1 HTTP/1.1\n\n", Refusal::Truncated),
    (b"GET /statement/1 HTTP/1.0\r\n\r\n", Refusal::BadHead),
    (b"GET /\xff HTTP/1.1\r\n\r\n", Refusal::BadHead),
    (
        b"GET /statement/1 HTTP/1.1\r\nx-ledger-key: \xff\r\n\r\n",
        Refusal::UnknownKey,
    ),
    // An empty line may stand in front, and a line may end in LF alone.
    (
        b"\r\nGET /statement/1 HTTP/1.1\na: b\r\n\r\n",
        Refusal::UnknownKey,
    ),
];

#[test]
fn refuses_odd_bytes(rt: HostRuntime) {
    for (bytes, refusal) in ODD {
        holds(&rt, bytes, refusal_of(&rt, bytes) == Some(refusal));
    }
}

// A request line, its route, and the account in its path.
const REQUESTS: [(&str, Route, &str); 15] = [
    ("POST /accounts", Route::Accounts, ""),
    ("POST /transfers", Route::Transfers, ""),
    ("POST /accounts/lookup", Route::LookupAccounts, ""),
    ("POST /transfers/lookup", Route::LookupTransfers, ""),
    ("POST /history/transfers", Route::HistoryTransfers, ""),
    ("POST /history/balances", Route::HistoryBalances, ""),
    ("POST /query/accounts", Route::QueryAccounts, ""),
    ("POST /query/transfers", Route::QueryTransfers, ""),
    ("POST /pending/lookup", Route::LookupPending, ""),
    ("POST /pending/open", Route::OpenPending, ""),
    ("POST /lint/accounts", Route::LintAccounts, ""),
    ("POST /lint/transfers", Route::LintTransfers, ""),
    ("GET /statement/1", Route::Statement, "1"),
    ("GET /statement/1?x", Route::Statement, "1?x"),
    ("GET /statement/é%2f", Route::Statement, "é%2f"),
];

// A good key in digits of mixed case, and other headers that are read.
const LOWER_KEY: &[u8] = b"0fababababababababababababababababababababababababababababababc9";

const HEADERS: &str = "a: é\r\nCONTENT-LENGTH:\t2 \r\n";

// A request is read as what it is, whatever is behind its body.
#[test]
fn reads_requests(rt: HostRuntime) -> Result<(), AllocError> {
    let key = Key::read(LOWER_KEY).expect(&rt, "a key");
    let headers = format!(in rt.alloc(); "{HEADERS}{KEY}")?;
    for (line, route, account) in REQUESTS {
        let text = message(&rt, line, &headers, "[]GET")?;
        let Ok(request) = asked(rt.alloc(), text.as_bytes()) else {
            panic!(rt; "refused: {line}");
        };
        holds(&rt, line, request.route == route && request.key == key);
        holds(&rt, line, request.account.as_bytes() == account.as_bytes());
        holds(&rt, line, request.body == b"[]".as_slice());
    }
    Ok(())
}

// Where a body is judged alone detail is asked for, and on the other routes it is not.
#[test]
fn asks_for_detail_where_a_body_is_judged(rt: HostRuntime) -> Result<(), AllocError> {
    let headers = format!(in rt.alloc(); "{HEADERS}{KEY}")?;
    for (line, route, _) in REQUESTS {
        let text = message(&rt, line, &headers, "[]")?;
        let Ok(request) = asked(rt.alloc(), text.as_bytes()) else {
            panic!(rt; "refused: {line}");
        };
        let judged = line.starts_with("POST /lint/");
        holds(&rt, line, request.detail == judged);
        holds(&rt, line, route.is_lint() == judged);
    }
    Ok(())
}

// The headers of a message that asks what needs no key.
const KEYLESS_HEADERS: [&str; 5] = [
    "",
    "host: 127.0.0.1:8080\r\naccept: text/html\r\nsec-fetch-mode: navigate\r\n",
    KEY,
    "x-ledger-key: 1\r\nx-ledger-key: 2\r\n",
    "content-length: 2\r\n",
];

#[test]
fn tells_the_page_and_health_to_everybody(rt: HostRuntime) -> Result<(), AllocError> {
    for headers in KEYLESS_HEADERS {
        for (line, early) in [("GET /", Early::Page), ("GET /health", Early::Health)] {
            let text = message(&rt, line, headers, "[]GET /statement/1 HTTP/1.1\r\n\r\n")?;
            let told = asked(rt.alloc(), text.as_bytes());
            holds(
                &rt,
                text.as_str(),
                matches!(told, Err(told) if told == early),
            );
        }
    }
    Ok(())
}

#[test]
fn reads_a_get_without_length(rt: HostRuntime) -> Result<(), AllocError> {
    let text = message(&rt, "GET /statement/7", KEY, "[]")?;
    let Ok(request) = asked(rt.alloc(), text.as_bytes()) else {
        panic!(rt; "refused");
    };
    assert!(rt; request.body.is_empty());
    assert!(rt; request.account.as_bytes() == b"7".as_slice());
    Ok(())
}
