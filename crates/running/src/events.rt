//! The events that would be sent to make an account and a transfer as they are stored.

ghost use Rattle.std.specs.Prelude.{◌≡◌};
ghost use Rattle.records.specs.Valid.{event_of_account, event_of_transfer};

use amount::Amount;
use records::{Account, AccountEvent, Transfer, TransferEvent};

pub(crate) fn event_of_account(account: &Account) -> AccountEvent
    ensures { result ≡ event_of_account account.now }
{
    AccountEvent {
        id: account.id,
        debits_pending: Amount::ZERO,
        debits_posted: Amount::ZERO,
        credits_pending: Amount::ZERO,
        credits_posted: Amount::ZERO,
        user_data_128: account.user_data_128,
        user_data_64: account.user_data_64,
        user_data_32: account.user_data_32,
        ledger: account.ledger,
        code: account.code,
        flags: account.flags,
        timestamp: 0,
    }
}

pub(crate) fn event_of_transfer(transfer: &Transfer) -> TransferEvent
    ensures { result ≡ event_of_transfer transfer.now }
{
    TransferEvent {
        id: transfer.id,
        debit_account_id: transfer.debit_account_id,
        credit_account_id: transfer.credit_account_id,
        amount: transfer.amount,
        pending_id: transfer.pending_id,
        user_data_128: transfer.user_data_128,
        user_data_64: transfer.user_data_64,
        user_data_32: transfer.user_data_32,
        timeout: transfer.timeout,
        ledger: transfer.ledger,
        code: transfer.code,
        flags: transfer.flags,
        timestamp: 0,
    }
}
