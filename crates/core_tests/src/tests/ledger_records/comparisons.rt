use crate::tests::asserting::same;
use amount::Amount;
use records::{
    Account, AccountResult, Transfer, TransferEvent, TransferFlags, TransferResult,
    compare_account, compare_transfer,
};
use samples::{BALANCING_DEBIT, POST, VOID, account, post, transfer, void, with};

const DIFFERENT_AMOUNT: Option<TransferResult> = Some(TransferResult::ExistsWithDifferentAmount);

fn opened() -> Account {
    Account {
        id: 1,
        ledger: 7,
        code: 10,
        timestamp: 1,
        ..Account::default()
    }
}

fn stored(flags: u16, pending_id: u128, amount: u128) -> Transfer {
    Transfer {
        id: 101,
        debit_account_id: 1,
        credit_account_id: 2,
        amount: Amount::new(amount),
        pending_id,
        ledger: 7,
        code: 1,
        flags: TransferFlags(flags),
        timestamp: 6,
        at: 7,
        ..Transfer::default()
    }
}

#[test]
fn compares_accounts(rt: HostRuntime) {
    let other_flags = compare_account(&opened(), &account(1, 6));
    let want = Some(AccountResult::ExistsWithDifferentFlags);
    same(&rt, "other flags", other_flags, want);
    // The balances of an event are not compared.
    let mut again = account(1, 0);
    again.debits_posted = Amount::new(5);
    let told = compare_account(&opened(), &again);
    same(&rt, "a balance", told, None);
}

// What differs from the kept post or void of transfer 100, which was of 100.
fn differing(flags: u16, amount: u128, again: &TransferEvent) -> Option<TransferResult> {
    compare_transfer(&stored(flags, 100, amount), again, Amount::new(100))
}

// A retry may leave open what a post or void may leave open.
#[test]
fn compares_posts_and_voids(rt: HostRuntime) {
    let all = post(101, 100, u128::MAX);
    let of_part = differing(POST, 40, &all);
    same(&rt, "all of a part", of_part, DIFFERENT_AMOUNT);
    same(&rt, "all of all", differing(POST, 100, &all), None);
    let whole = differing(VOID, 100, &void(101, 100, 0));
    same(&rt, "a void of all", whole, None);
    let less = differing(VOID, 100, &void(101, 100, 99));
    same(&rt, "a void of less", less, DIFFERENT_AMOUNT);
}

#[test]
fn compares_balancing_transfers(rt: HostRuntime) {
    let old = stored(BALANCING_DEBIT, 0, 30);
    for (case, amount, want) in [
        ("less", 29, DIFFERENT_AMOUNT),
        ("as much", 30, None),
        ("all", u128::MAX, None),
    ] {
        let again = with(BALANCING_DEBIT, transfer(101, (1, 2), amount));
        let found = compare_transfer(&old, &again, old.amount);
        same(&rt, case, found, want);
    }
}
