ghost use Rattle.std.specs.Prelude.{◌≡◌};
ghost use Rattle.records.specs.FirstOf.{first_of};
ghost use Rattle.records.specs.AccountVerdict.{account_event_results, account_difference};

use crate::{Account, AccountEvent, AccountResult};

/// Results 3 to 6: the first that the event alone decides, before its id is looked up.
pub fn account_fields(ev: &AccountEvent) -> Option<AccountResult>
    ensures { result ≡ first_of (account_event_results ev.now) }
{
    if ev.timestamp != 0 {
        return Some(AccountResult::TimestampMustBeZero);
    }
    if ev.flags.has_reserved() {
        return Some(AccountResult::ReservedFlag);
    }
    if ev.id == 0 {
        return Some(AccountResult::IdMustNotBeZero);
    }
    if ev.id == u128::MAX {
        return Some(AccountResult::IdMustNotBeIntMax);
    }
    None
}

/// Results 7 to 12: the first field in which the event differs from the account that exists under
/// its id, in the order of the results. The event's balances are not compared.
pub fn compare_account(old: &Account, new: &AccountEvent) -> Option<AccountResult>
    ensures { result ≡ account_difference old.now new.now }
{
    if new.flags != old.flags {
        return Some(AccountResult::ExistsWithDifferentFlags);
    }
    if new.user_data_128 != old.user_data_128 {
        return Some(AccountResult::ExistsWithDifferentUserData128);
    }
    if new.user_data_64 != old.user_data_64 {
        return Some(AccountResult::ExistsWithDifferentUserData64);
    }
    if new.user_data_32 != old.user_data_32 {
        return Some(AccountResult::ExistsWithDifferentUserData32);
    }
    if new.ledger != old.ledger {
        return Some(AccountResult::ExistsWithDifferentLedger);
    }
    if new.code != old.code {
        return Some(AccountResult::ExistsWithDifferentCode);
    }
    None
}
