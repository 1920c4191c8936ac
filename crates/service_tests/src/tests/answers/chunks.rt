//! Statements as replies: bodies in chunks (RFC 9112, 7.1).
use std::alloc::{AllocError, Global};

/// How many rows a chunk has, behind the header's line in the first.
const ROWS: usize = 500;

/// Puts a chunk behind others. One of no bytes is the last.
fn put_chunk(alloc: Global, chunks: &mut String, text: &str) -> Result<(), AllocError> {
    let length = text.len();
    chunks.push_str(&format!(in alloc; "{length:x}\r\n{text}\r\n")?)
}

/// The chunks of a statement: its first line and 500 rows, each further 500 rows, and the last.
fn chunks_of(alloc: Global, csv: &str) -> Result<String, AllocError> {
    let mut chunks = String::new(alloc);
    let mut text = String::new(alloc);
    for (row, line) in csv.lines().enumerate() {
        text.push_str(line)?;
        text.push_str("\n")?;
        if row > 0 && row % ROWS == 0 {
            put_chunk(alloc, &mut chunks, &text)?;
            text = String::new(alloc);
        }
    }
    if !text.is_empty() {
        put_chunk(alloc, &mut chunks, &text)?;
    }
    put_chunk(alloc, &mut chunks, "")?;
    Ok(chunks)
}

/// The reply that has a statement.
pub(crate) fn in_chunks(alloc: Global, csv: &str) -> Result<Vec<u8>, AllocError> {
    let chunks = chunks_of(alloc, csv)?;
    let text = format!(in alloc;
        "HTTP/1.1 200 OK\r\ncontent-type: text/csv\r\ntransfer-encoding: chunked\r\n\r\n{chunks}"
    )?;
    Ok(text.into_bytes())
}
