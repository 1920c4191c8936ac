ghost use Rattle.std.specs.Prelude.{◌≡◌};
ghost use Rattle.records.specs.FirstOf.{first_of};
ghost use Rattle.records.specs.ActualAmount.{amount_asked};
ghost use Rattle.records.specs.TransferVerdict.{transfer_event_results, transfer_difference};
ghost use Rattle.records.specs.TransferVerdict.{transfer_difference_results};
ghost use Rattle.records.specs.TransferVerdict.{transfer_detail_results, differs};
ghost use Rattle.records.specs.TransferVerdict.{amount_differs};

use crate::{Transfer, TransferEvent, TransferResult};
use amount::Amount;

/// Results 3 to 6: the first that the event alone decides, before its id is looked up.
pub fn transfer_fields(ev: &TransferEvent) -> Option<TransferResult>
    ensures { result ≡ first_of (transfer_event_results ev.now) }
{
    if ev.timestamp != 0 {
        return Some(TransferResult::TimestampMustBeZero);
    }
    if ev.flags.has_reserved() {
        return Some(TransferResult::ReservedFlag);
    }
    if ev.id == 0 {
        return Some(TransferResult::IdMustNotBeZero);
    }
    if ev.id == u128::MAX {
        return Some(TransferResult::IdMustNotBeIntMax);
    }
    None
}

impl TransferEvent {
    ghost use Rattle.std.specs.Prelude.{◌≡◌};
    ghost use Rattle.records.specs.ActualAmount.{amount_asked};

    /// The amount that a post or void asks for, where `pending` is that of its pending transfer:
    /// for a post the greatest number is the whole pending amount.
    pub fn amount_asked(&self, pending: Amount) -> Amount
        ensures { result ≡ amount_asked pending self.now }
    {
        if self.flags.is_post() && self.amount == Amount::MAX {
            pending
        } else {
            self.amount
        }
    }
}

// Whether a field of the event differs, where a post or void may leave it 0.
fn differs(ev: &TransferEvent, given: u128, existing: u128) -> bool
    ensures { result ≡ differs ev.now given existing }
{
    given != existing && !(ev.flags.is_post_or_void() && given == 0)
}

// Whether the amount differs: a void's 0 is equal, a post's greatest number counts as the pending
// amount, and the retry of a balancing transfer differs only below the existing amount.
fn amount_differs(old: &Transfer, pending_amount: Amount, new: &TransferEvent) -> bool
    ensures { result ≡ amount_differs old.now pending_amount new.now }
{
    if new.flags.is_void() {
        new.amount != Amount::ZERO && new.amount != old.amount
    } else if new.flags.is_post() {
        new.amount_asked(pending_amount) != old.amount
    } else if new.flags.is_balancing() {
        new.amount < old.amount
    } else {
        new.amount != old.amount
    }
}

/// Results 7 to 17: the first field in which the event differs from the transfer that exists under
/// its id, in the order of the results. `pending_amount` is the amount of the pending transfer that
/// an existing post names.
pub fn compare_transfer(
    old: &Transfer,
    new: &TransferEvent,
    pending_amount: Amount,
) -> Option<TransferResult>
    ensures { result ≡ transfer_difference old.now pending_amount new.now }
{
    if let Some(result) = compare_request(old, new, pending_amount) {
        return Some(result);
    }
    compare_details(old, new)
}

// Results 7 to 12: flags, pending_id, timeout, accounts and amount.
fn compare_request(
    old: &Transfer,
    new: &TransferEvent,
    pending_amount: Amount,
) -> Option<TransferResult>
    ensures { result ≡ first_of (transfer_difference_results old.now pending_amount new.now) }
{
    if new.flags != old.flags {
        return Some(TransferResult::ExistsWithDifferentFlags);
    }
    if new.pending_id != old.pending_id {
        return Some(TransferResult::ExistsWithDifferentPendingId);
    }
    if new.timeout != old.timeout {
        return Some(TransferResult::ExistsWithDifferentTimeout);
    }
    if differs(new, new.debit_account_id, old.debit_account_id) {
        return Some(TransferResult::ExistsWithDifferentDebitAccountId);
    }
    if differs(new, new.credit_account_id, old.credit_account_id) {
        return Some(TransferResult::ExistsWithDifferentCreditAccountId);
    }
    if amount_differs(old, pending_amount, new) {
        return Some(TransferResult::ExistsWithDifferentAmount);
    }
    None
}

// Results 13 to 17: user data, ledger and code.
fn compare_details(old: &Transfer, new: &TransferEvent) -> Option<TransferResult>
    ensures { result ≡ first_of (transfer_detail_results old.now new.now) }
{
    if differs(new, new.user_data_128, old.user_data_128) {
        return Some(TransferResult::ExistsWithDifferentUserData128);
    }
    if differs(new, new.user_data_64.into(), old.user_data_64.into()) {
        return Some(TransferResult::ExistsWithDifferentUserData64);
    }
    if differs(new, new.user_data_32.into(), old.user_data_32.into()) {
        return Some(TransferResult::ExistsWithDifferentUserData32);
    }
    if differs(new, new.ledger.into(), old.ledger.into()) {
        return Some(TransferResult::ExistsWithDifferentLedger);
    }
    if differs(new, new.code.into(), old.code.into()) {
        return Some(TransferResult::ExistsWithDifferentCode);
    }
    None
}
