//! Messages and replies, from texts in few words.
use super::chunks::in_chunks;
use super::events::{results, transfers};
use crate::tests::messages::{FIRST, HEADER, SECOND};
use service::Message;
use std::alloc::{AllocError, Global};

/// The key of no firm.
const NOBODY: &str = "1111111111111111111111111111111111111111111111111111111111111111";

/// A key with a digit too few.
const SHORT: &str = "000000000000000000000000000000000000000000000000000000000000000";

/// The batch of no event without its last byte.
pub(crate) const CUT_SHORT: &str = concat!(
    "POST /transfers HTTP/1.1\r\nx-ledger-key: ",
    "0000000000000000000000000000000000000000000000000000000000000000",
    "\r\ncontent-length: 2\r\n\r\n["
);

/// Accounts 1 to 4 of one ledger, the third with a limit on its debits and with a history.
const ACCOUNTS: &str = concat!(
    r#"[{"id":"1","ledger":7,"code":10},{"id":"2","ledger":7,"code":10},"#,
    r#"{"id":"3","ledger":7,"code":10,"flags":10},{"id":"4","ledger":7,"code":10}]"#
);

/// The key under which a script knows a firm.
pub(crate) fn key_of(name: &str) -> &'static str {
    match name {
        "North" => FIRST,
        "South" => SECOND,
        "Short" => SHORT,
        _ => NOBODY,
    }
}

/// A request by POST.
pub(crate) fn post(
    alloc: Global,
    path: &str,
    key: &str,
    body: &str,
) -> Result<Vec<u8>, AllocError> {
    let length = body.len();
    let text = format!(in alloc;
        "POST {path} HTTP/1.1\r\nx-ledger-key: {key}\r\ncontent-length: {length}\r\n\r\n{body}"
    )?;
    Ok(text.into_bytes())
}

/// A request by POST that asks where its body is refused.
fn detailed(alloc: Global, path: &str, key: &str, body: &str) -> Result<Vec<u8>, AllocError> {
    let path = format!(in alloc; "{path} HTTP/1.1\r\nx-ledger-detail: 1\r\nx-ledger-key: {key}")?;
    let length = body.len();
    let text = format!(in alloc; "POST {path}\r\ncontent-length: {length}\r\n\r\n{body}")?;
    Ok(text.into_bytes())
}

/// A request by GET.
pub(crate) fn get(alloc: Global, path: &str, key: &str) -> Result<Vec<u8>, AllocError> {
    let text = format!(in alloc; "GET {path} HTTP/1.1\r\nx-ledger-key: {key}\r\n\r\n")?;
    Ok(text.into_bytes())
}

/// 1,001 times the same transfer.
fn copies(alloc: Global) -> Result<String, AllocError> {
    let event = r#"{"id":"9"}"#;
    let mut body = format!(in alloc; "[{event}")?;
    for _ in 0..1000 {
        body.push_str(",")?;
        body.push_str(event)?;
    }
    body.push_str("]")?;
    Ok(body)
}

/// The bytes of a message that is written with bars for the ends of lines.
pub(crate) fn written(alloc: Global, text: &str) -> Result<Vec<u8>, AllocError> {
    Ok(text.replace(alloc, "|", "\r\n")?.into_bytes())
}

/// What a firm sends: `base`, its accounts; `transfers 100: 1>2 10; 101: post=100 10`; `copies`,
/// too many events; `cut`, which comes to no end; or a method, a path and a body. The method
/// `detail` is a POST that asks where its body is refused. The firm `raw` sends the message as it
/// is written.
fn bytes_of(alloc: Global, name: &str, what: &str) -> Result<Vec<u8>, AllocError> {
    let key = key_of(name);
    let (word, rest) = what.split_once(' ').unwrap_or((what, ""));
    match word {
        _ if name == "raw" => written(alloc, what),
        "GET" => get(alloc, rest, key),
        "cut" => CUT_SHORT.as_bytes().to_vec(alloc),
        "base" => post(alloc, "/accounts", key, ACCOUNTS),
        "copies" => post(alloc, "/transfers", key, &copies(alloc)?),
        "transfers" => post(alloc, "/transfers", key, &transfers(alloc, rest)?),
        _ => {
            let (path, body) = rest.split_once(' ').unwrap_or((rest, ""));
            if word == "detail" {
                detailed(alloc, path, key, body)
            } else {
                post(alloc, path, key, body)
            }
        }
    }
}

/// The message of a text: a firm, `@` and a moment other than 0, and what the firm sends.
pub(crate) fn message(alloc: Global, text: &str) -> Result<Message, AllocError> {
    let (who, what) = text.split_once(' ').unwrap_or((text, ""));
    let (name, moment) = who.split_once('@').unwrap_or((who, "0"));
    let bytes = bytes_of(alloc, name, what)?;
    let moment = moment.parse().unwrap_or(0);
    Ok(Message { bytes, moment })
}

/// A reply of some status.
pub(crate) fn reply(
    alloc: Global,
    status: &str,
    kind: &str,
    body: &str,
) -> Result<Vec<u8>, AllocError> {
    let length = body.len();
    let text = format!(in alloc;
        "HTTP/1.1 {status}\r\ncontent-length: {length}\r\ncontent-type: {kind}\r\n\r\n{body}"
    )?;
    Ok(text.into_bytes())
}

/// A reply of status 200 with JSON.
pub(crate) fn good(alloc: Global, body: &str) -> Result<Vec<u8>, AllocError> {
    reply(alloc, "200 OK", "application/json", body)
}

/// A statement with these lines, each a word.
fn statement(alloc: Global, lines: &str) -> Result<Vec<u8>, AllocError> {
    let mut csv = HEADER.to_string(alloc)?;
    for line in lines.split_whitespace() {
        csv.push_str(line)?;
        csv.push_str("\n")?;
    }
    in_chunks(alloc, &csv)
}

/// A refusal, by its name and its status.
fn refusal(alloc: Global, text: &str) -> Result<Vec<u8>, AllocError> {
    let (name, status) = text.split_once(' ').unwrap_or((text, ""));
    let body = format!(in alloc; "{{\"error\":\"{name}\"}}")?;
    reply(alloc, status, "application/json", &body)
}

/// The bytes of the whole reply that a text describes. It is the JSON of a good one, `clock` with
/// results, or `csv` with the lines of a statement. Or it is a refusal, or a status and JSON with
/// `: ` between them.
pub(crate) fn wanted(alloc: Global, text: &str) -> Result<Vec<u8>, AllocError> {
    let (word, rest) = text.split_once(' ').unwrap_or((text, ""));
    match word {
        _ if text.starts_with('{') => good(alloc, text),
        "clock" => good(alloc, &results(alloc, rest)?),
        "csv" => statement(alloc, rest),
        _ => match text.split_once(": ") {
            Some((status, body)) => reply(alloc, status, "application/json", body),
            None => refusal(alloc, text),
        },
    }
}
