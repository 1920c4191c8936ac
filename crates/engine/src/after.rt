ghost use Rattle.std.specs.Prelude.{◌≡◌};
ghost use Rattle.engine.specs.After.{balances_after, sums_after, sums_after_post_or_void};
ghost use Rattle.engine.specs.After.{sums_after_single_or_pending};

use crate::amounts::{capped_sum, sums_without};
use amount::Amount;
use records::{Balances, PendingTransfer, Side, Sums, Transfer};

// The balances of the account on this side with the transfer, where `pending` is what it names.
pub(crate) fn balances_after(
    side: Side,
    balances: &Balances,
    pending: &Option<PendingTransfer>,
    stored: &Transfer,
) -> Balances
    ensures { result ≡ balances_after side balances.now pending.now stored.now }
{
    let sums = sums_after(balances.sums_on(side), pending, stored);
    balances.with_sums(side, sums)
}

fn sums_after(sums: Sums, pending: &Option<PendingTransfer>, stored: &Transfer) -> Sums
    ensures { result ≡ sums_after sums pending.now stored.now }
{
    match pending {
        Some(pending) if stored.flags.is_post_or_void() => {
            sums_after_post_or_void(sums, pending.transfer.amount, stored)
        }
        _ => sums_after_single_or_pending(sums, stored),
    }
}

// The whole pending amount is released, and a post adds its own.
fn sums_after_post_or_void(sums: Sums, pending: Amount, stored: &Transfer) -> Sums
    ensures { result ≡ sums_after_post_or_void sums pending stored.now }
{
    let released = sums_without(sums, pending);
    if stored.flags.is_post() {
        Sums {
            posted: capped_sum(released.posted, stored.amount),
            ..released
        }
    } else {
        released
    }
}

fn sums_after_single_or_pending(sums: Sums, stored: &Transfer) -> Sums
    ensures { result ≡ sums_after_single_or_pending sums stored.now }
{
    if stored.flags.is_pending() {
        Sums {
            pending: capped_sum(sums.pending, stored.amount),
            ..sums
        }
    } else {
        Sums {
            posted: capped_sum(sums.posted, stored.amount),
            ..sums
        }
    }
}
