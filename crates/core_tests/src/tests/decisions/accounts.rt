use super::facts::opened;
use crate::tests::asserting::same;
use amount::Amount;
use engine::{AccountDecision, decide_account};
use records::{Account, AccountEvent, AccountResult};
use samples::account;

// Why an event is refused at the timestamp 6.
fn refusal(known: &Option<Account>, ev: &AccountEvent) -> Option<AccountResult> {
    match decide_account(known, ev, 6) {
        AccountDecision::Refuse(result) => Some(result),
        AccountDecision::Accept(_) => None,
    }
}

#[test]
fn refuses_accounts_by_their_fields(rt: HostRuntime) {
    let of_no_ledger = AccountEvent {
        ledger: 0,
        ..account(5, 6)
    };
    let flags = AccountResult::FlagsAreMutuallyExclusive;
    same(
        &rt,
        "both limits",
        refusal(&None, &of_no_ledger),
        Some(flags),
    );
    let with_pending_debits = AccountEvent {
        debits_pending: Amount::new(1),
        ledger: 0,
        ..account(5, 0)
    };
    let pending = AccountResult::DebitsPendingMustBeZero;
    same(
        &rt,
        "debits",
        refusal(&None, &with_pending_debits),
        Some(pending),
    );
    let reserved = AccountResult::ReservedFlag;
    same(
        &rt,
        "reserved",
        refusal(&None, &account(0, 16)),
        Some(reserved),
    );
}

#[test]
fn refuses_accounts_that_are_open(rt: HostRuntime) {
    let known = Some(opened(1, 0));
    let other_flags = AccountResult::ExistsWithDifferentFlags;
    same(
        &rt,
        "other flags",
        refusal(&known, &account(1, 6)),
        Some(other_flags),
    );
    let with_debits = AccountEvent {
        debits_posted: Amount::new(5),
        ..account(1, 0)
    };
    let exists = AccountResult::Exists;
    same(&rt, "again", refusal(&known, &with_debits), Some(exists));
}

#[test]
fn accepts_an_account(rt: HostRuntime) {
    let told = decide_account(&None, &account(5, 0), 5);
    same(
        &rt,
        "account 5",
        told,
        AccountDecision::Accept(opened(5, 0)),
    );
}
