ghost use Rattle.std.specs.Prelude.{◌≡◌};
ghost use Rattle.samples.specs.Events.{account, transfer, post, void, with, balances};

use crate::flags::{POST, VOID};
use amount::Amount;
use records::{AccountEvent, AccountFlags, Balances, Sums, TransferEvent, TransferFlags};

/// An account of ledger 7 and code 10.
pub fn account(id: u128, flags: u16) -> AccountEvent
    ensures { result ≡ account id flags }
{
    AccountEvent {
        id,
        ledger: 7,
        code: 10,
        flags: AccountFlags(flags),
        ..AccountEvent::default()
    }
}

/// A transfer of ledger 7 and code 1, from a debit account to a credit account.
pub fn transfer(id: u128, accounts: (u128, u128), amount: u128) -> TransferEvent
    ensures { result ≡ transfer id accounts.0 accounts.1 amount }
{
    let (debit, credit) = accounts;
    TransferEvent {
        id,
        debit_account_id: debit,
        credit_account_id: credit,
        amount: Amount::new(amount),
        ledger: 7,
        code: 1,
        ..TransferEvent::default()
    }
}

/// A post of a pending transfer.
pub fn post(id: u128, pending_id: u128, amount: u128) -> TransferEvent
    ensures { result ≡ post id pending_id amount }
{
    TransferEvent {
        id,
        pending_id,
        amount: Amount::new(amount),
        flags: TransferFlags(POST),
        ..TransferEvent::default()
    }
}

/// A void of a pending transfer.
pub fn void(id: u128, pending_id: u128, amount: u128) -> TransferEvent
    ensures { result ≡ void id pending_id amount }
{
    with(VOID, post(id, pending_id, amount))
}

/// The event with these flags in place of its own.
pub fn with(flags: u16, event: TransferEvent) -> TransferEvent
    ensures { result ≡ with flags event }
{
    TransferEvent {
        flags: TransferFlags(flags),
        ..event
    }
}

/// Balances, by debits and credits, the pending sum first.
pub fn balances(debits: (u128, u128), credits: (u128, u128)) -> Balances
    ensures { result ≡ balances debits.0 debits.1 credits.0 credits.1 }
{
    Balances {
        debits: sums(debits),
        credits: sums(credits),
    }
}

fn sums(both: (u128, u128)) -> Sums
    ensures pending { result.pending ≡ both.0 }
    ensures posted { result.posted ≡ both.1 }
{
    let (pending, posted) = both;
    Sums {
        pending: Amount::new(pending),
        posted: Amount::new(posted),
    }
}
