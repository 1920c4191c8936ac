ghost use Rattle.std.specs.Prelude.{◌≡◌, ◌<◌, ◌≤◌, ◌^◌};
ghost use Rattle.std.specs.List.{sum_by};
ghost use Rattle.records.specs.Machine.{max_amount};
ghost use Rattle.records.specs.Balances.{posted_amount, pending_amount, amount_on};
ghost use Rattle.records.specs.Balances.{sums_of, balances_of, total_of};

use crate::fate::fate;
use amount::Amount;
use records::{Balances, PendingState, Side, Sums, Transfer};

/// The balances of an account at this clock, in nanoseconds.
pub fn balances(transfers: &[Transfer], clock: u64, account: u128) -> Balances
    requires debits { total_of (balances_of transfers.now clock account).debits ≤ max_amount }
    requires credits { total_of (balances_of transfers.now clock account).credits ≤ max_amount }
    ensures { result ≡ balances_of transfers.now clock account }
{
    Balances {
        debits: sums(Side::Debit, transfers, clock, account),
        credits: sums(Side::Credit, transfers, clock, account),
    }
}

fn sums(side: Side, transfers: &[Transfer], clock: u64, account: u128) -> Sums
    requires { total_of (sums_of side transfers.now clock account) ≤ max_amount }
    ensures { result ≡ sums_of side transfers.now clock account }
{
    Sums {
        pending: pending_sum(side, transfers, clock, account),
        posted: posted_sum(side, transfers, account),
    }
}

fn pending_sum(side: Side, transfers: &[Transfer], clock: u64, account: u128) -> Amount
    requires { sum_by (amount_on side account (pending_amount transfers.now clock)) transfers.now
        < 2 ^ 128 }
    ensures { result
        ≡ sum_by (amount_on side account (pending_amount transfers.now clock)) transfers.now }
{
    let mut total = 0;
    for entry in transfers {
        if entry.account_on(side) == account {
            total += pending_amount(transfers, clock, entry);
        }
    }
    Amount::new(total)
}

fn posted_sum(side: Side, transfers: &[Transfer], account: u128) -> Amount
    requires { sum_by (amount_on side account posted_amount) transfers.now < 2 ^ 128 }
    ensures { result ≡ sum_by (amount_on side account posted_amount) transfers.now }
{
    let mut total = 0;
    for entry in transfers {
        if entry.account_on(side) == account {
            total += posted_amount(entry);
        }
    }
    Amount::new(total)
}

fn pending_amount(transfers: &[Transfer], clock: u64, entry: &Transfer) -> u128
    ensures { result ≡ pending_amount transfers.now clock entry.now }
{
    if entry.flags.is_pending() && fate(transfers, clock, entry) == PendingState::Open {
        entry.amount.value()
    } else {
        0
    }
}

fn posted_amount(entry: &Transfer) -> u128
    ensures { result ≡ posted_amount entry.now }
{
    let flags = entry.flags;
    let is_single_phase = !flags.is_pending() && !flags.is_post_or_void();
    if is_single_phase || flags.is_post() {
        entry.amount.value()
    } else {
        0
    }
}
