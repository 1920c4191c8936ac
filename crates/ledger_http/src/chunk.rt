ghost use Rattle.std.specs.Prelude.{◌≡◌, ◌++◌, OnOk};
ghost use Rattle.ledger_http.specs.Chunks.{chunk};

use std::alloc::{AllocError, Global};

/// Puts a chunk of a body behind others (RFC 9112, 7.1). One of no bytes is the last.
pub fn put_chunk(alloc: Global, chunks: &mut Vec<u8>, bytes: &[u8]) -> Result<(), AllocError>
    ensures { OnOk result (chunks.new.items ≡ chunks.old.items ++ chunk bytes.now) }
{
    let length = bytes.len();
    let size = format!(in alloc; "{length:x}\r\n")?;
    chunks.extend_from_slice(size.as_bytes())?;
    chunks.extend_from_slice(bytes)?;
    chunks.extend_from_slice(b"\r\n")
}
