//! What refuses a transfer event, in the order of `docs/RESULTS.md`. Each function is named as the
//! definition that it meets, and answers the first result of its part that holds.

ghost use Rattle.std.specs.Prelude.{◌≡◌, ◌+◌, ◌<◌, ◌^◌, nat_lt, SomeIff};
ghost use Rattle.records.specs.FirstOf.{first_of};
ghost use Rattle.records.specs.Balances.{total_of};
ghost use Rattle.records.specs.TransferVerdict.{transfer_verdict, new_transfer_verdict};
ghost use Rattle.records.specs.TransferVerdict.{new_transfer_results, post_or_void_verdict};
ghost use Rattle.records.specs.TransferVerdict.{post_or_void_results, pending_transfer_results};
ghost use Rattle.records.specs.TransferVerdict.{is_given_otherwise, is_partial_void};
ghost use Rattle.records.specs.TransferVerdict.{single_or_pending_verdict};
ghost use Rattle.records.specs.TransferVerdict.{single_or_pending_results, accounts_verdict};
ghost use Rattle.records.specs.TransferVerdict.{ledger_results, room_verdict, overflow_results};
ghost use Rattle.records.specs.TransferVerdict.{overflows, limit_results, exceeds_limit};

use crate::amounts::amount_balanced;
use amount::Amount;
use records::{
    AccountWithBalances, PendingState, PendingTransfer, Side, Sums, TransferEvent, TransferFacts,
    TransferResult, compare_transfer, transfer_fields,
};

// All results: 3 to 6 of the event alone, 7 to 18 of one whose id exists, else the others.
#[tactic(auto, unfolding(records::specs::TransferVerdict::transfer_verdict))]
pub(crate) fn transfer_verdict(facts: &TransferFacts, ev: &TransferEvent) -> Option<TransferResult>
    ensures { result ≡ transfer_verdict facts.now ev.now }
{
    if let Some(result) = transfer_fields(ev) {
        return Some(result);
    }
    let Some(old) = &facts.existing else {
        return new_transfer_verdict(facts, ev);
    };
    compare_transfer(&old.transfer, ev, old.pending_amount).or(Some(TransferResult::Exists))
}

// Results 60 and 19 to 56: an event whose id does not exist.
fn new_transfer_verdict(facts: &TransferFacts, ev: &TransferEvent) -> Option<TransferResult>
    ensures { result ≡ new_transfer_verdict facts.now ev.now }
{
    if let Some(result) = new_transfer_results(facts, ev) {
        return Some(result);
    }
    if ev.flags.is_post_or_void() {
        post_or_void_verdict(facts, ev)
    } else {
        single_or_pending_verdict(facts, ev)
    }
}

// Results 60 and 19.
fn new_transfer_results(facts: &TransferFacts, ev: &TransferEvent) -> Option<TransferResult>
    ensures { result ≡ first_of (new_transfer_results facts.now ev.now) }
{
    if facts.failed {
        return Some(TransferResult::IdAlreadyFailed);
    }
    if ev.flags.are_exclusive() {
        return Some(TransferResult::FlagsAreMutuallyExclusive);
    }
    None
}

// Results 20 to 34: a post or void.
fn post_or_void_verdict(facts: &TransferFacts, ev: &TransferEvent) -> Option<TransferResult>
    ensures { result ≡ post_or_void_verdict facts.now ev.now }
{
    if let Some(result) = post_or_void_results(ev) {
        return Some(result);
    }
    let Some(pending) = &facts.pending else {
        return Some(TransferResult::PendingTransferNotFound);
    };
    pending_transfer_results(pending, ev)
}

// Results 20 to 23: how it names the pending transfer.
fn post_or_void_results(ev: &TransferEvent) -> Option<TransferResult>
    ensures { result ≡ first_of (post_or_void_results ev.now) }
{
    if ev.pending_id == 0 {
        return Some(TransferResult::PendingIdMustNotBeZero);
    }
    if ev.pending_id == u128::MAX {
        return Some(TransferResult::PendingIdMustNotBeIntMax);
    }
    if ev.pending_id == ev.id {
        return Some(TransferResult::PendingIdMustBeDifferent);
    }
    if ev.timeout != 0 {
        return Some(TransferResult::TimeoutReservedForPendingTransfer);
    }
    None
}

// Results 25 to 34: how it fits the pending transfer.
fn pending_transfer_results(p: &PendingTransfer, ev: &TransferEvent) -> Option<TransferResult>
    ensures { result ≡ first_of (pending_transfer_results p.now ev.now) }
{
    let pending = &p.transfer;
    if !pending.flags.is_pending() {
        return Some(TransferResult::PendingTransferNotPending);
    }
    if is_given_otherwise(ev.debit_account_id, pending.debit_account_id) {
        return Some(TransferResult::PendingTransferHasDifferentDebitAccountId);
    }
    if is_given_otherwise(ev.credit_account_id, pending.credit_account_id) {
        return Some(TransferResult::PendingTransferHasDifferentCreditAccountId);
    }
    if is_given_otherwise(ev.ledger.into(), pending.ledger.into()) {
        return Some(TransferResult::PendingTransferHasDifferentLedger);
    }
    if is_given_otherwise(ev.code.into(), pending.code.into()) {
        return Some(TransferResult::PendingTransferHasDifferentCode);
    }
    if ev.amount_asked(pending.amount) > pending.amount {
        return Some(TransferResult::ExceedsPendingTransferAmount);
    }
    if is_partial_void(ev, pending.amount) {
        return Some(TransferResult::PendingTransferHasDifferentAmount);
    }
    match p.state {
        Some(PendingState::Posted) => Some(TransferResult::PendingTransferAlreadyPosted),
        Some(PendingState::Voided) => Some(TransferResult::PendingTransferAlreadyVoided),
        Some(PendingState::Expired) => Some(TransferResult::PendingTransferExpired),
        Some(PendingState::Open) | None => None,
    }
}

// Whether a field is given, not left 0, and not that of the pending transfer.
fn is_given_otherwise(given: u128, pending: u128) -> bool
    ensures { result ≡ is_given_otherwise given pending }
{
    given != 0 && given != pending
}

// Whether a void gives back less than the whole pending amount.
fn is_partial_void(ev: &TransferEvent, pending: Amount) -> bool
    ensures { result ≡ is_partial_void ev.now pending }
{
    ev.flags.is_void() && ev.amount != Amount::ZERO && ev.amount < pending
}

// Results 35 to 56: a single-phase or pending transfer.
fn single_or_pending_verdict(facts: &TransferFacts, ev: &TransferEvent) -> Option<TransferResult>
    ensures { result ≡ single_or_pending_verdict facts.now ev.now }
{
    if let Some(result) = single_or_pending_results(ev) {
        return Some(result);
    }
    accounts_verdict(&facts.debit, &facts.credit, ev)
}

// Results 35 to 43: its own fields.
fn single_or_pending_results(ev: &TransferEvent) -> Option<TransferResult>
    ensures { result ≡ first_of (single_or_pending_results ev.now) }
{
    if ev.debit_account_id == 0 {
        return Some(TransferResult::DebitAccountIdMustNotBeZero);
    }
    if ev.debit_account_id == u128::MAX {
        return Some(TransferResult::DebitAccountIdMustNotBeIntMax);
    }
    if ev.credit_account_id == 0 {
        return Some(TransferResult::CreditAccountIdMustNotBeZero);
    }
    if ev.credit_account_id == u128::MAX {
        return Some(TransferResult::CreditAccountIdMustNotBeIntMax);
    }
    if ev.debit_account_id == ev.credit_account_id {
        return Some(TransferResult::AccountsMustBeDifferent);
    }
    if ev.pending_id != 0 {
        return Some(TransferResult::PendingIdMustBeZero);
    }
    if ev.timeout != 0 && !ev.flags.is_pending() {
        return Some(TransferResult::TimeoutReservedForPendingTransfer);
    }
    if ev.ledger == 0 {
        return Some(TransferResult::LedgerMustNotBeZero);
    }
    if ev.code == 0 {
        return Some(TransferResult::CodeMustNotBeZero);
    }
    None
}

// Results 44 to 56: its two accounts.
fn accounts_verdict(
    debit: &Option<AccountWithBalances>,
    credit: &Option<AccountWithBalances>,
    ev: &TransferEvent,
) -> Option<TransferResult>
    ensures { result ≡ accounts_verdict debit.now credit.now ev.now }
{
    let Some(debit) = debit else {
        return Some(TransferResult::DebitAccountNotFound);
    };
    let Some(credit) = credit else {
        return Some(TransferResult::CreditAccountNotFound);
    };
    if let Some(result) = ledger_results(debit, credit, ev) {
        return Some(result);
    }
    room_verdict(debit, credit, amount_balanced(debit, credit, ev), ev)
}

// Results 46 and 47: their ledger.
fn ledger_results(
    debit: &AccountWithBalances,
    credit: &AccountWithBalances,
    ev: &TransferEvent,
) -> Option<TransferResult>
    ensures { result ≡ first_of (ledger_results debit.now credit.now ev.now) }
{
    if debit.account.ledger != credit.account.ledger {
        return Some(TransferResult::AccountsMustHaveTheSameLedger);
    }
    if ev.ledger != debit.account.ledger {
        return Some(TransferResult::TransferMustHaveTheSameLedgerAsAccounts);
    }
    None
}

// Results 48 to 56: their sums and limits, with an amount that is lowered already.
fn room_verdict(
    debit: &AccountWithBalances,
    credit: &AccountWithBalances,
    amount: Amount,
    ev: &TransferEvent,
) -> Option<TransferResult>
    ensures { result ≡ room_verdict debit.now credit.now amount ev.now }
{
    if let Some(result) = overflow_results(debit, credit, amount, ev) {
        return Some(result);
    }
    limit_results(debit, credit, amount)
}

// Results 48 to 53: whether each sum stays an amount.
fn overflow_results(
    debit: &AccountWithBalances,
    credit: &AccountWithBalances,
    amount: Amount,
    ev: &TransferEvent,
) -> Option<TransferResult>
    ensures { result ≡ first_of (overflow_results debit.now credit.now amount ev.now) }
{
    let is_pending = ev.flags.is_pending();
    if is_pending && overflows(debit.balances.debits.pending, amount) {
        return Some(TransferResult::OverflowsDebitsPending);
    }
    if is_pending && overflows(credit.balances.credits.pending, amount) {
        return Some(TransferResult::OverflowsCreditsPending);
    }
    if overflows(debit.balances.debits.posted, amount) {
        return Some(TransferResult::OverflowsDebitsPosted);
    }
    if overflows(credit.balances.credits.posted, amount) {
        return Some(TransferResult::OverflowsCreditsPosted);
    }
    if exceeds(Amount::MAX, debit.balances.debits, amount) {
        return Some(TransferResult::OverflowsDebits);
    }
    if exceeds(Amount::MAX, credit.balances.credits, amount) {
        return Some(TransferResult::OverflowsCredits);
    }
    None
}

// Results 55 and 56: whether each account keeps its limit.
fn limit_results(
    debit: &AccountWithBalances,
    credit: &AccountWithBalances,
    amount: Amount,
) -> Option<TransferResult>
    ensures { result ≡ first_of (limit_results debit.now credit.now amount) }
{
    if exceeds_limit(Side::Debit, debit, amount) {
        return Some(TransferResult::ExceedsCredits);
    }
    if exceeds_limit(Side::Credit, credit, amount) {
        return Some(TransferResult::ExceedsDebits);
    }
    None
}

// Whether an amount more on a side takes the account past its limit.
fn exceeds_limit(side: Side, account: &AccountWithBalances, amount: Amount) -> bool
    ensures { result ≡ exceeds_limit side account.now amount }
{
    let limit = account.balances.sums_on(side.other()).posted;
    account.account.flags.limits_side(side)
        && exceeds(limit, account.balances.sums_on(side), amount)
}

// Whether a sum and an amount together exceed 128 bits.
fn overflows(sum: Amount, amount: Amount) -> bool
    ensures { result ≡ overflows sum amount }
{
    sum.checked_add(amount).is_none()
}

// Whether all that a side has, pending sums too, exceeds a limit with an amount more. A total that
// exceeds 128 bits exceeds any limit.
fn exceeds(limit: Amount, sums: Sums, amount: Amount) -> bool
    ensures { result ≡ nat_lt limit (total_of sums + amount) }
{
    let _limit = limit.value();
    match total_with(sums, amount) {
        Some(total) => limit < total,
        None => true,
    }
}

// The total of a side with an amount more.
fn total_with(sums: Sums, amount: Amount) -> Option<Amount>
    ensures { SomeIff result (total_of sums + amount < 2 ^ 128) (total_of sums + amount) }
{
    sums.pending.checked_add(sums.posted)?.checked_add(amount)
}
