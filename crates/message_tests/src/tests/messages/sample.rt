//! Readers that are slow and fail, and messages that are refused.
ghost use Rattle.std.specs.Prelude.{◌≡◌, false};
ghost use Rattle.records.specs.Streamed.{stream_failed};

use failing_streams::Pieces;
use ledger_http::{Early, Message, Refusal, asked, read_message};
use records::Streamed;
use std::alloc::AllocError;

/// A good key.
pub(crate) const KEY: &str =
    "x-ledger-key: 0FababababababababababababababababababababababababababababababC9\r\n";

/// A request line without its version, the headers behind it, the body, and why they are refused.
pub(crate) type Refused = (&'static str, &'static str, &'static str, Refusal);

// Each refusal, and where one message meets several, the one that comes first.
static REFUSED: [Refused; 72] = [
    // Heads that are not good, whatever else is wrong with them.
    ("GET /\u{7f}", "", "", Refusal::BadHead),
    ("POST / HTTP/1.0\r\na: b", "", "", Refusal::BadHead),
    (
        "POST /nowhere",
        "content-length: 2\r\nContent-Length: 2\r\n",
        "ab",
        Refusal::BadHead,
    ),
    (
        "POST /accounts",
        "content-length: 05\r\n",
        "12345",
        Refusal::BadHead,
    ),
    (
        "POST /accounts",
        "content-length: +2\r\n",
        "ab",
        Refusal::BadHead,
    ),
    (
        "POST /accounts",
        "content-length: 2, 2\r\n",
        "ab",
        Refusal::BadHead,
    ),
    (
        "POST /accounts",
        "content-length:\r\n",
        "",
        Refusal::BadHead,
    ),
    (
        "POST /accounts",
        "content-length: ٢\r\n",
        "ab",
        Refusal::BadHead,
    ),
    (
        "POST /nowhere",
        "transfer-encoding:\r\n",
        "",
        Refusal::BadHead,
    ),
    (
        "POST /nowhere",
        "Transfer-Encoding: chunked\r\n",
        "0\r\n\r\n",
        Refusal::BadHead,
    ),
    ("GET /accounts", "a : b\r\n", "", Refusal::BadHead),
    ("GET /accounts", "a: b\r\n c\r\n", "", Refusal::BadHead),
    ("GET /accounts", "a: \u{1}\r\n", "", Refusal::BadHead),
    ("GET /accounts HTTP/1.1\n\n", "", "", Refusal::BadHead),
    // No length, or one that is too long.
    ("POST /nowhere", "", "", Refusal::LengthRequired),
    ("get /accounts", "", "", Refusal::LengthRequired),
    (
        "POST /nowhere",
        "content-length: 2097153\r\n",
        "",
        Refusal::BodyTooLarge,
    ),
    (
        "GET /nowhere",
        "content-length: 2097153\r\n",
        "",
        Refusal::BodyTooLarge,
    ),
    (
        "POST /accounts",
        "content-length: 18446744073709551618\r\n",
        "ab",
        Refusal::BodyTooLarge,
    ),
    (
        "POST /accounts",
        "content-length: 999999999999999999999999999999\r\n",
        "",
        Refusal::BodyTooLarge,
    ),
    // Bodies that are cut short.
    (
        "POST /nowhere",
        "content-length: 2097152\r\n",
        "ab",
        Refusal::Truncated,
    ),
    (
        "GET /nowhere",
        "content-length: 3\r\n",
        "ab",
        Refusal::Truncated,
    ),
    // Paths without a route, whatever the method and the key.
    ("GET /é", "", "", Refusal::NoRoute),
    ("GET /?", "", "", Refusal::NoRoute),
    (
        "POST /accounts/",
        "content-length: 0\r\n",
        "",
        Refusal::NoRoute,
    ),
    (
        "POST //accounts",
        "content-length: 0\r\n",
        "",
        Refusal::NoRoute,
    ),
    (
        "POST /transfers/",
        "content-length: 0\r\n",
        "",
        Refusal::NoRoute,
    ),
    (
        "POST /transfers?x=1",
        "content-length: 0\r\n",
        "",
        Refusal::NoRoute,
    ),
    ("GET /statement", "", "", Refusal::NoRoute),
    ("GET /statement/", "", "", Refusal::NoRoute),
    ("GET /statement/1/", "", "", Refusal::NoRoute),
    ("GET /statement/1/2", "", "", Refusal::NoRoute),
    // The method of another route, whatever the key.
    ("GET /accounts", "", "", Refusal::BadMethod),
    (
        "get /accounts",
        "content-length: 0\r\n",
        "",
        Refusal::BadMethod,
    ),
    (
        "HEAD /statement/1",
        "content-length: 0\r\n",
        "",
        Refusal::BadMethod,
    ),
    (
        "POST /statement/01",
        "content-length: 0\r\n",
        "",
        Refusal::BadMethod,
    ),
    // Keys that are missing, doubled or ill-formed, whatever the body.
    (
        "POST /accounts",
        "content-length: 1\r\n",
        "[",
        Refusal::UnknownKey,
    ),
    ("GET /statement/01", "", "", Refusal::UnknownKey),
    (
        "GET /statement/1",
        "x-ledger-key: 000000000000000000000000000000000000000000000000000000000000000\r\n",
        "",
        Refusal::UnknownKey,
    ),
    (
        "GET /statement/1",
        "x-ledger-key: 000000000000000000000000000000000000000000000000000000000000000g\r\n",
        "",
        Refusal::UnknownKey,
    ),
    (
        "GET /statement/1",
        "x-ledger-key: é00000000000000000000000000000000000000000000000000000000000000\r\n",
        "",
        Refusal::UnknownKey,
    ),
    (
        "GET /statement/1",
        "x-ledger-key:\r\n",
        "",
        Refusal::UnknownKey,
    ),
    (
        "GET /statement/1",
        "x-ledger-key: 0000000000000000000000000000000000000000000000000000000000000000\r\n\
     X-Ledger-Key: 0000000000000000000000000000000000000000000000000000000000000000\r\n",
        "",
        Refusal::UnknownKey,
    ),
    (
        "GET /statement/1",
        "X-LEDGER-KEY: 0000000000000000000000000000000000000000000000000000000000000000\r\n\
     x-ledger-key: 1\r\n",
        "",
        Refusal::UnknownKey,
    ),
    // The page by any method but GET, whatever the key.
    ("POST /", "", "", Refusal::LengthRequired),
    ("POST /", "content-length: 0\r\n", "", Refusal::BadMethod),
    ("HEAD /", "content-length: 0\r\n", "", Refusal::BadMethod),
    (
        "OPTIONS /",
        "content-length: 0\r\nx-ledger-key: 1\r\n",
        "",
        Refusal::BadMethod,
    ),
    ("get /", "content-length: 0\r\n", "", Refusal::BadMethod),
    // What is near the path of the page.
    ("GET //", "", "", Refusal::NoRoute),
    ("GET /index.html", "", "", Refusal::NoRoute),
    ("GET http://127.0.0.1/", "", "", Refusal::NoRoute),
    // What is near the paths of queries and holds, and those paths by another method.
    ("POST /query", "content-length: 0\r\n", "", Refusal::NoRoute),
    (
        "POST /query/accounts/",
        "content-length: 0\r\n",
        "",
        Refusal::NoRoute,
    ),
    (
        "POST /query/pending",
        "content-length: 0\r\n",
        "",
        Refusal::NoRoute,
    ),
    (
        "POST /pending",
        "content-length: 0\r\n",
        "",
        Refusal::NoRoute,
    ),
    ("GET /query/accounts", "", "", Refusal::BadMethod),
    ("GET /query/transfers", "", "", Refusal::BadMethod),
    ("GET /pending/lookup", "", "", Refusal::BadMethod),
    (
        "PUT /pending/open",
        "content-length: 0\r\n",
        "",
        Refusal::BadMethod,
    ),
    // What is near the paths on which bodies are judged, and those paths by another method.
    ("POST /lint", "content-length: 0\r\n", "", Refusal::NoRoute),
    (
        "POST /lint/pending",
        "content-length: 0\r\n",
        "",
        Refusal::NoRoute,
    ),
    (
        "POST /lint/transfers/",
        "content-length: 0\r\n",
        "",
        Refusal::NoRoute,
    ),
    ("GET /lint/transfers", "", "", Refusal::BadMethod),
    ("GET /lint/accounts", "", "", Refusal::BadMethod),
    (
        "POST /lint/transfers",
        "content-length: 0\r\n",
        "",
        Refusal::UnknownKey,
    ),
    // Health by another method, and what is near its path.
    ("POST /health", "", "", Refusal::LengthRequired),
    (
        "POST /health",
        "content-length: 0\r\n",
        "",
        Refusal::BadMethod,
    ),
    (
        "HEAD /health",
        "content-length: 0\r\nx-ledger-key: 1\r\n",
        "",
        Refusal::BadMethod,
    ),
    ("GET /health/", "", "", Refusal::NoRoute),
    ("GET /health?x", "", "", Refusal::NoRoute),
    ("GET /Health", "", "", Refusal::NoRoute),
];

/// Messages that are refused. The table is named here alone, as each function that names it takes
/// long to prove.
pub(crate) fn refused() -> &'static [Refused] {
    &REFUSED
}

/// A message of these parts.
pub(crate) fn message(
    rt: &impl AllocGlobal,
    line: &str,
    headers: &str,
    body: &str,
) -> Result<String, AllocError> {
    format!(in rt.alloc(); "{line} HTTP/1.1\r\n{headers}\r\n{body}")
}

/// A request whose head has this many bytes, with a body of two.
pub(crate) fn request_of(rt: &impl AllocGlobal, head: usize) -> Result<Vec<u8>, AllocError> {
    let front = b"POST /accounts HTTP/1.1\r\ncontent-length: 2\r\na: ";
    let mut bytes = Vec::from_slice(rt.alloc(), front)?;
    for _ in front.len() + 4..head {
        bytes.push(b'x')?;
    }
    bytes.extend_from_slice(b"\r\n\r\n[]")?;
    Ok(bytes)
}

/// Whether the refusal comes before the request is looked at.
pub(crate) fn is_of_reading(refusal: Refusal) -> bool {
    matches!(
        refusal,
        Refusal::BadHead
            | Refusal::HeadTooLarge
            | Refusal::LengthRequired
            | Refusal::BodyTooLarge
            | Refusal::Truncated
    )
}

/// Why bytes are refused, if they are.
pub(crate) fn refusal_of(rt: &impl AllocGlobal, bytes: &[u8]) -> Option<Refusal> {
    match asked(rt.alloc(), bytes) {
        Ok(_) | Err(Early::Page | Early::Health) => None,
        Err(Early::Refused(refusal)) => Some(refusal),
    }
}

/// A reader of these bytes in pieces, which ends or fails behind them.
pub(crate) fn reader_of(bytes: &[u8], piece: usize, fails: bool) -> Streamed<Pieces<'_>>
    ensures { stream_failed result ≡ false }
{
    Streamed::new(Pieces {
        bytes,
        piece,
        fails,
    })
}

/// Why the first message that is read is refused, if it is.
pub(crate) fn refusal_read(rt: &impl AllocGlobal, bytes: &[u8], piece: usize) -> Option<Refusal> {
    match read_message(rt.alloc(), &mut reader_of(bytes, piece, false)) {
        Ok(Message::Refused(refusal)) => Some(refusal),
        _ => None,
    }
}

/// Whether the first message that is read is all of the bytes.
pub(crate) fn is_read_whole(rt: &impl AllocGlobal, bytes: &[u8], piece: usize) -> bool {
    match read_message(rt.alloc(), &mut reader_of(bytes, piece, false)) {
        Ok(Message::Whole(whole)) => whole.as_slice() == bytes,
        _ => false,
    }
}
