use crate::{Account, Balances, Transfer};
use amount::Amount;

/// What has become of a pending transfer.
#[derive(Clone, Copy, Debug, PartialEq, Eq)]
pub enum PendingState {
    Open,
    Posted,
    Voided,
    /// Its due time has come, and it was neither posted nor voided.
    Expired,
}

/// The transfer that exists under the id of an event.
#[derive(Clone, Copy, Debug, PartialEq, Eq)]
pub struct ExistingTransfer {
    pub transfer: Transfer,
    /// Of a post or void the amount of the pending transfer that it ended, else its own amount.
    pub pending_amount: Amount,
}

/// The transfer that a post or void names by its pending_id.
#[derive(Clone, Copy, Debug, PartialEq, Eq)]
pub struct PendingTransfer {
    pub transfer: Transfer,
    /// None where the transfer is not a pending one.
    pub state: Option<PendingState>,
}

/// An account with its balances.
#[derive(Clone, Copy, Debug, PartialEq, Eq)]
pub struct AccountWithBalances {
    pub account: Account,
    pub balances: Balances,
}

/// All that the decision on a transfer depends on, besides the event and the clock.
#[derive(Clone, Copy, Debug, PartialEq, Eq)]
pub struct TransferFacts {
    /// The transfer of the event's id.
    pub existing: Option<ExistingTransfer>,
    /// Whether the event's id has failed for good.
    pub failed: bool,
    /// The transfer of the event's pending_id, for a post or void.
    pub pending: Option<PendingTransfer>,
    /// The debit account: that of the event, or of the pending transfer for a post or void.
    pub debit: Option<AccountWithBalances>,
    /// The credit account, likewise.
    pub credit: Option<AccountWithBalances>,
}
