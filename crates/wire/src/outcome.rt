use crate::{BodyFault, Items};
use ledger_http::Refusal;
use records::{
    AccountResult, AccountWithBalances, BalanceAt, EventResult, Hold, Transfer, TransferResult,
};

/// What a page shows.
#[derive(Debug, Drop)]
pub enum Entries {
    Accounts(Items<AccountWithBalances>),
    Transfers(Items<Transfer>),
    OpenHolds(Items<Hold>),
}

/// What became of a request: all that its reply shows. Each clock is in nanoseconds.
#[derive(Debug, Drop)]
pub enum Outcome {
    Refused(Refusal),
    /// The body is refused, and the reply says where.
    Detailed(Refusal, BodyFault),
    /// The clock after a batch of accounts, and a result for each event.
    AccountResults {
        clock: u64,
        results: Items<EventResult<AccountResult>>,
    },
    /// The clock after a batch of transfers, and a result for each event.
    TransferResults {
        clock: u64,
        results: Items<EventResult<TransferResult>>,
    },
    /// The accounts that a lookup found.
    Accounts {
        clock: u64,
        accounts: Items<AccountWithBalances>,
    },
    /// The transfers that a lookup or a history found.
    Transfers {
        clock: u64,
        transfers: Items<Transfer>,
    },
    /// The balances that a history found.
    Balances {
        clock: u64,
        balances: Items<BalanceAt>,
    },
    /// A page of what a query found, and the time with which the next one is asked for.
    Page {
        clock: u64,
        next: u64,
        entries: Entries,
    },
    /// The holds that a lookup found.
    Holds {
        clock: u64,
        holds: Items<Hold>,
    },
    /// The chunks of a statement, as CSV.
    Statement(Items<u8>),
    /// A body that is judged and not booked is good, and has this many events.
    Linted(usize),
}
