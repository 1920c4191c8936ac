ghost use Rattle.std.specs.Prelude.{◌≡◌};
ghost use Rattle.std.specs.List.{list_any};
ghost use Rattle.records.specs.Due.{is_due};
ghost use Rattle.records.specs.Fate.{posts, voids, fate_of};

use records::{PendingState, SECOND, Transfer};

fn is_due(clock: u64, transfer: &Transfer) -> bool
    ensures { result ≡ is_due clock transfer.now }
{
    let due = transfer.timestamp as u128 + transfer.timeout as u128 * SECOND as u128;
    transfer.flags.is_pending() && transfer.timeout > 0 && due <= clock as u128
}

fn posts(entry: &Transfer, id: u128) -> bool
    ensures { result ≡ posts id entry.now }
{
    entry.flags.is_post() && entry.pending_id == id
}

fn voids(entry: &Transfer, id: u128) -> bool
    ensures { result ≡ voids id entry.now }
{
    entry.flags.is_void() && entry.pending_id == id
}

fn is_posted(transfers: &[Transfer], id: u128) -> bool
    ensures { result ≡ list_any (posts id) transfers.now }
{
    transfers.iter().any(|entry| posts(entry, id))
}

fn is_voided(transfers: &[Transfer], id: u128) -> bool
    ensures { result ≡ list_any (voids id) transfers.now }
{
    transfers.iter().any(|entry| voids(entry, id))
}

/// What has become of a pending transfer at this clock, in nanoseconds.
pub fn fate(transfers: &[Transfer], clock: u64, transfer: &Transfer) -> PendingState
    ensures { result ≡ fate_of transfers.now clock transfer.now }
{
    if is_posted(transfers, transfer.id) {
        PendingState::Posted
    } else if is_voided(transfers, transfer.id) {
        PendingState::Voided
    } else if is_due(clock, transfer) {
        PendingState::Expired
    } else {
        PendingState::Open
    }
}
