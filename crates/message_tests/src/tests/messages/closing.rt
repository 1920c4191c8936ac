use super::sample::{KEY, message};
use crate::tests::asserting::holds;
use ledger_http::{asked, is_closing};
use std::alloc::AllocError;

// Headers, and whether the connection ends after the reply to a message that has them.
const CONNECTIONS: [(&str, bool); 16] = [
    ("", false),
    ("Connection: close\r\n", true),
    ("connection:close\r\n", true),
    ("CONNECTION: \tCLOSE \r\n", true),
    ("connection: keep-alive\r\n", false),
    ("connection: keep-alive, close\r\n", true),
    ("connection: close,te\r\n", true),
    ("connection: te ,\tClose\t, upgrade\r\n", true),
    ("connection: ,,close,\r\n", true),
    ("connection: te\r\na: b\r\nconnection: close\r\n", true),
    ("connection: close\r\nconnection: keep-alive\r\n", true),
    ("connection:\r\n", false),
    ("connection: closed\r\n", false),
    ("connection: \"close\"\r\n", false),
    ("connection: not close\r\n", false),
    ("x-connection: close\r\nproxy-connection: close\r\n", false),
];

#[test]
fn a_head_says_whether_its_connection_ends(rt: HostRuntime) -> Result<(), AllocError> {
    let next = "GET / HTTP/1.1\r\nconnection: close\r\n\r\n";
    for (headers, closes) in CONNECTIONS {
        for line in ["GET /statement/1", "GET /nowhere", "GET /health"] {
            let text = message(&rt, line, headers, next)?;
            holds(&rt, text.as_str(), is_closing(text.as_bytes()) == closes);
        }
    }
    Ok(())
}

// What has no good head does not say so.
#[test]
fn a_bad_head_does_not_end_its_connection_itself(rt: HostRuntime) {
    let bad: [&[u8]; 3] = [
        b"GET / HTTP/1.1\r\nconnection: close\r\n",
        b"GET / HTTP/1.0\r\nconnection: close\r\n\r\n",
        b"GET / HTTP/1.1\r\nconnection: close\r\ntransfer-encoding: chunked\r\n\r\n",
    ];
    for bytes in bad {
        holds(&rt, bytes, !is_closing(bytes));
    }
}

// Headers, and whether they ask for detail.
const DETAILS: [(&str, bool); 7] = [
    ("", false),
    ("X-Ledger-Detail: 1\r\n", true),
    ("x-ledger-detail:\t1 \r\n", true),
    ("x-ledger-detail: 0\r\n", false),
    ("x-ledger-detail: 11\r\n", false),
    ("x-ledger-detail:\r\n", false),
    ("x-ledger-detail: 1\r\nx-ledger-detail: 1\r\n", false),
];

#[test]
fn a_head_says_whether_it_asks_for_detail(rt: HostRuntime) -> Result<(), AllocError> {
    for (headers, detail) in DETAILS {
        let headers = format!(in rt.alloc(); "{headers}{KEY}")?;
        let text = message(&rt, "GET /statement/1", &headers, "")?;
        let Ok(request) = asked(rt.alloc(), text.as_bytes()) else {
            panic!(rt; "refused: {headers}");
        };
        holds(&rt, text.as_str(), request.detail == detail);
    }
    Ok(())
}
