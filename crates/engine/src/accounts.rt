ghost use Rattle.std.specs.Prelude.{◌≡◌};
ghost use Rattle.records.specs.Machine.{Machine, account_with};
ghost use Rattle.records.specs.Valid.{IsNextTimestamp, IsNextAccount};
ghost use Rattle.records.specs.Widths.{IsAccountInWidth};
ghost use Rattle.records.specs.FirstOf.{first_of};
ghost use Rattle.records.specs.AccountVerdict.{account_verdict, new_account_results};
ghost use Rattle.records.specs.StoredRecord.{stored_account};
ghost use Rattle.engine.specs.Decision.{IsAccountDecision, IfAccountAccepted};

use crate::AccountDecision;
use amount::Amount;
use records::{Account, AccountEvent, AccountResult, account_fields, compare_account};

/// The decision on an account event, where `old` is the account that exists under its id. The
/// account is opened at the timestamp, in nanoseconds.
pub fn decide_account(old: &Option<Account>, ev: &AccountEvent, timestamp: u64) -> AccountDecision
    ensures decision { IsAccountDecision old.now ev.now timestamp result }
    ensures next { (m : Machine) →
        old.now ≡ account_with ev.now.id m.accounts → IsNextTimestamp m timestamp →
        IfAccountAccepted result (IsNextAccount m) }
{
    match account_verdict(old, ev) {
        Some(result) => AccountDecision::Refuse(result),
        None => AccountDecision::Accept(open(ev, timestamp)),
    }
}

// All results: 3 to 6 of the event alone, 7 to 13 of one whose id exists, else the others.
#[tactic(auto, unfolding(records::specs::AccountVerdict::account_verdict))]
fn account_verdict(old: &Option<Account>, ev: &AccountEvent) -> Option<AccountResult>
    ensures { result ≡ account_verdict old.now ev.now }
{
    if let Some(result) = account_fields(ev) {
        return Some(result);
    }
    match old {
        Some(old) => compare_account(old, ev).or(Some(AccountResult::Exists)),
        None => new_account_results(ev),
    }
}

// Results 14 to 20: what a new account has to meet.
fn new_account_results(ev: &AccountEvent) -> Option<AccountResult>
    ensures { result ≡ first_of (new_account_results ev.now) }
{
    if ev.flags.are_exclusive() {
        return Some(AccountResult::FlagsAreMutuallyExclusive);
    }
    if ev.debits_pending != Amount::ZERO {
        return Some(AccountResult::DebitsPendingMustBeZero);
    }
    if ev.debits_posted != Amount::ZERO {
        return Some(AccountResult::DebitsPostedMustBeZero);
    }
    if ev.credits_pending != Amount::ZERO {
        return Some(AccountResult::CreditsPendingMustBeZero);
    }
    if ev.credits_posted != Amount::ZERO {
        return Some(AccountResult::CreditsPostedMustBeZero);
    }
    if ev.ledger == 0 {
        return Some(AccountResult::LedgerMustNotBeZero);
    }
    if ev.code == 0 {
        return Some(AccountResult::CodeMustNotBeZero);
    }
    None
}

fn open(ev: &AccountEvent, timestamp: u64) -> Account
    ensures stored { result ≡ stored_account ev.now timestamp }
    ensures widths { IsAccountInWidth result }
{
    let account = Account {
        id: ev.id,
        user_data_128: ev.user_data_128,
        user_data_64: ev.user_data_64,
        user_data_32: ev.user_data_32,
        ledger: ev.ledger,
        code: ev.code,
        flags: ev.flags,
        timestamp,
    };
    account.widths();
    account
}
