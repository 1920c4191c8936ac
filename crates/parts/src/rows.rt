//! The lines of an account's entries.
ghost use Rattle.std.specs.Prelude.{◌≡◌, ◌++◌, IfOk, map};
ghost use Rattle.chain.specs.AccountEntries.{row_of};
ghost use Rattle.statement.specs.Text.{lines_of};
ghost use Rattle.parts.specs.Chunks.{part_chunks};

use chain::AccountEntry;
use ledger_http::put_chunk;
use records::StatementRow;
use statement::line_of;
use std::alloc::{AllocError, Global};

/// The line of an entry in its account's statement.
pub fn row_of(account: u128, entry: &AccountEntry) -> StatementRow
    ensures { result ≡ row_of account entry.now }
{
    StatementRow {
        timestamp: entry.transfer.timestamp,
        transfer_id: entry.transfer.id,
        side: entry.transfer.side_of(account),
        kind: entry.transfer.flags.kind(),
        amount: entry.transfer.amount,
        balances: entry.balances,
    }
}

/// The lines of entries, behind what stands before them.
pub(crate) fn put_lines(
    alloc: Global,
    before: &[u8],
    account: u128,
    entries: &[AccountEntry],
) -> Result<Vec<u8>, AllocError>
    ensures { IfOk result (λ lines.
        lines.items ≡ before.now ++ lines_of (map (row_of account) entries.now)) }
{
    let mut lines = Vec::new(alloc);
    lines.extend_from_slice(before)?;
    let mut line = Vec::new(alloc);
    for entry in entries {
        line = match line_of(line, &row_of(account, entry)) {
            Ok(line) => line,
            Err(_) => return Err(AllocError),
        };
        lines.extend_from_slice(&line)?;
    }
    Ok(lines)
}

/// The chunks of a part that has these lines.
pub(crate) fn chunks_of(alloc: Global, lines: &[u8], is_last: bool) -> Result<Vec<u8>, AllocError>
    ensures { IfOk result (λ chunks. chunks.items ≡ part_chunks is_last lines.now) }
{
    let mut chunks = Vec::new(alloc);
    if !is_last {
        put_chunk(alloc, &mut chunks, lines)?;
        return Ok(chunks);
    }
    if !lines.is_empty() {
        put_chunk(alloc, &mut chunks, lines)?;
    }
    put_chunk(alloc, &mut chunks, b"")?;
    Ok(chunks)
}
