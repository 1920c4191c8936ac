//! What the events of the tests meet.
ghost use Rattle.std.specs.Prelude.{◌≡◌};

use records::{
    Account, AccountFlags, AccountWithBalances, PendingState, PendingTransfer, Transfer,
    TransferEvent, TransferFacts,
};
use samples::{PENDING, balances, post, transfer, with};

// Of ledger 7 and code 10, and opened at the timestamp of its id.
pub(super) fn opened(id: u64, flags: u16) -> Account {
    Account {
        id: u128::from(id),
        ledger: 7,
        code: 10,
        flags: AccountFlags(flags),
        timestamp: id,
        ..Account::default()
    }
}

// debits_pending, debits_posted, credits_pending and credits_posted
pub(super) fn found(id: u64, flags: u16, sums: [u128; 4]) -> Option<AccountWithBalances> {
    let [
        debits_pending,
        debits_posted,
        credits_pending,
        credits_posted,
    ] = sums;
    Some(AccountWithBalances {
        account: opened(id, flags),
        balances: balances(
            (debits_pending, debits_posted),
            (credits_pending, credits_posted),
        ),
    })
}

pub(super) fn between(
    debit: Option<AccountWithBalances>,
    credit: Option<AccountWithBalances>,
) -> TransferFacts {
    TransferFacts {
        existing: None,
        failed: false,
        pending: None,
        debit,
        credit,
    }
}

// Accounts 1 and 2, with no entries.
pub(super) fn between_new_accounts() -> TransferFacts {
    between(found(1, 0, [0; 4]), found(2, 0, [0; 4]))
}

pub(super) fn stored(ev: &TransferEvent, timestamp: u64) -> Transfer
    ensures { result.timestamp ≡ timestamp }
{
    Transfer {
        id: ev.id,
        debit_account_id: ev.debit_account_id,
        credit_account_id: ev.credit_account_id,
        amount: ev.amount,
        pending_id: ev.pending_id,
        user_data_128: ev.user_data_128,
        user_data_64: ev.user_data_64,
        user_data_32: ev.user_data_32,
        timeout: ev.timeout,
        ledger: ev.ledger,
        code: ev.code,
        flags: ev.flags,
        timestamp,
        at: timestamp,
    }
}

// Transfer 100, pending from account 1 to account 2.
pub(super) fn pending(amount: u128, timeout: u32) -> TransferEvent {
    TransferEvent {
        timeout,
        ..with(PENDING, transfer(100, (1, 2), amount))
    }
}

// Transfer 100 with what it has come to, and its two accounts.
pub(super) fn facts_of_pending(amount: u128, timeout: u32, state: PendingState) -> TransferFacts {
    let open = if state == PendingState::Open {
        amount
    } else {
        0
    };
    TransferFacts {
        pending: Some(PendingTransfer {
            transfer: stored(&pending(amount, timeout), 5),
            state: Some(state),
        }),
        ..between(found(1, 0, [open, 0, 0, 0]), found(2, 0, [0, 0, open, 0]))
    }
}

// The record of the post of 40 of transfer 100.
pub(super) fn part_posted() -> Transfer {
    Transfer {
        debit_account_id: 1,
        credit_account_id: 2,
        ledger: 7,
        code: 1,
        ..stored(&post(101, 100, 40), 6)
    }
}
