//! Transfers of the first firm, and the statement that tells of them, built by hand.
use crate::tests::firms::Firms;
use crate::tests::messages::{BATCH, FIRST, HEADER};
use std::alloc::{AllocError, Global};
use std::test::Fail;

/// The first firm asks for the statement of its account 1.
pub(crate) const ASKS: &str = concat!(
    "GET /statement/1 HTTP/1.1\r\nx-ledger-key: ",
    "0000000000000000000000000000000000000000000000000000000000000000",
    "\r\n\r\n"
);

/// Its accounts. They have the timestamps 1001 and 1002.
const ACCOUNTS: &str = concat!(
    "POST /accounts HTTP/1.1\r\nx-ledger-key: ",
    "0000000000000000000000000000000000000000000000000000000000000000",
    "\r\ncontent-length: 63\r\n\r\n",
    "[{\"id\":\"1\",\"ledger\":7,\"code\":1},{\"id\":\"2\",\"ledger\":7,\"code\":1}]"
);

/// The head of a reply that tells a statement, up to its first chunk (RFC 9112, 7.1).
pub(crate) const CHUNKED: &str = concat!(
    "HTTP/1.1 200 OK\r\ncontent-type: text/csv\r\n",
    "transfer-encoding: chunked\r\n\r\n"
);

/// The last chunk.
pub(crate) const LAST: &str = "0\r\n\r\n";

/// How many transfers one message has at most.
const MOST_EVENTS: u64 = 1000;

/// A message of the first firm that books so many transfers of 7 from account 1 to account 2,
/// behind so many others.
pub(crate) fn transfers(alloc: Global, before: u64, count: u64) -> Result<Vec<u8>, AllocError> {
    let mut body = Vec::new(alloc);
    for number in before..before.saturating_add(count) {
        let front = if number == before { '[' } else { ',' };
        let id = number.saturating_add(10);
        let event = format!(in alloc;
            "{front}{{\"id\":\"{id}\",\"debit_account_id\":\"1\",\"credit_account_id\":\"2\",\
             \"amount\":\"7\",\"ledger\":7,\"code\":1}}"
        )?;
        body.extend_from_slice(event.as_bytes())?;
    }
    body.push(b']')?;
    let length = body.len();
    let head = format!(in alloc;
        "POST /transfers HTTP/1.1\r\nx-ledger-key: {FIRST}\r\ncontent-length: {length}\r\n\r\n"
    )?;
    let mut message = head.into_bytes();
    message.extend_from_slice(&body)?;
    Ok(message)
}

/// Accounts, so many transfers between them, the statement of one, and a batch with no event.
pub(crate) fn with_statement(alloc: Global, entries: u64) -> Result<Vec<u8>, AllocError> {
    let mut all = Vec::new(alloc);
    all.extend_from_slice(ACCOUNTS.as_bytes())?;
    all.extend_from_slice(&transfers(alloc, 0, entries)?)?;
    all.extend_from_slice(ASKS.as_bytes())?;
    all.extend_from_slice(BATCH.as_bytes())?;
    Ok(all)
}

/// Firms of whom the first has booked so many transfers.
pub(crate) fn firms_with(alloc: Global, keys: &[&str], count: u64) -> Result<Firms, Fail> {
    let mut firms = Firms::with(alloc, keys)?;
    let _ = firms.serve_alone(ACCOUNTS.as_bytes());
    let mut booked = 0;
    for _ in 0..count / MOST_EVENTS + 1 {
        let more = MOST_EVENTS.min(count.saturating_sub(booked));
        if more > 0 {
            let _ = firms.serve_alone(&transfers(alloc, booked, more)?);
        }
        booked = booked.saturating_add(more);
    }
    Ok(firms)
}

/// The chunk that has the lines of the transfers from one place to another. The first line of all
/// stands in the first chunk.
pub(crate) fn chunk(alloc: Global, from: u64, to: u64) -> Result<Vec<u8>, AllocError> {
    let mut lines = Vec::new(alloc);
    if from == 0 {
        lines.extend_from_slice(HEADER.as_bytes())?;
    }
    for number in from..to {
        let timestamp = number.saturating_add(1003);
        let id = number.saturating_add(10);
        let posted = number.saturating_add(1).saturating_mul(7);
        let line = format!(in alloc; "{timestamp},{id},debit,single,7,0,{posted},0,0\n")?;
        lines.extend_from_slice(line.as_bytes())?;
    }
    let length = lines.len();
    let mut chunk = format!(in alloc; "{length:x}\r\n")?.into_bytes();
    chunk.extend_from_slice(&lines)?;
    chunk.extend_from_slice(b"\r\n")?;
    Ok(chunk)
}

/// The reply that tells of so many transfers, where these are the places behind each chunk's last.
pub(crate) fn statement(alloc: Global, places: &[u64]) -> Result<Vec<u8>, AllocError> {
    let mut text = Vec::new(alloc);
    text.extend_from_slice(CHUNKED.as_bytes())?;
    let mut from = 0;
    for to in places {
        text.extend_from_slice(&chunk(alloc, from, *to)?)?;
        from = *to;
    }
    text.extend_from_slice(LAST.as_bytes())?;
    Ok(text)
}
