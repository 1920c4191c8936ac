ghost use Rattle.std.specs.Prelude.{◌≡◌, IfOk};
ghost use Rattle.serde_json.specs.Written.{compact_text};
ghost use Rattle.wire.specs.Reply.{account_batch_data, transfer_batch_data};

use crate::listed::list_text;
use crate::members::Member;
use crate::shown::Plain;
use records::{AccountResult, EventResult, TransferResult};
use std::alloc::{AllocError, Global};

/// The reply's body to a batch of transfers, as compact JSON. The clock is that after the batch, in
/// nanoseconds.
pub fn batch_text_transfers(
    alloc: Global,
    clock: u64,
    results: &[EventResult<TransferResult>],
) -> Result<Vec<u8>, AllocError>
    ensures { IfOk result (λ text.
        text.items ≡ compact_text (transfer_batch_data clock results.now)) }
{
    list_text::<_, Plain>(
        alloc,
        &[Member::u64("clock", clock)],
        "results",
        results,
        &[],
    )
}

/// The reply's body to a batch of accounts, as compact JSON. The clock is that after the batch, in
/// nanoseconds.
pub fn batch_text_accounts(
    alloc: Global,
    clock: u64,
    results: &[EventResult<AccountResult>],
) -> Result<Vec<u8>, AllocError>
    ensures { IfOk result (λ text.
        text.items ≡ compact_text (account_batch_data clock results.now)) }
{
    let clock = [Member::u64("clock", clock)];
    list_text::<_, Plain>(alloc, &clock, "results", results, &[])
}
