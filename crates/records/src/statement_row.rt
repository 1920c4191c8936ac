use crate::{Balances, Side};
use amount::Amount;

/// What kind of transfer an entry is.
#[derive(Clone, Copy, Debug, PartialEq, Eq)]
pub enum Kind {
    Single,
    Pending,
    Post,
    Void,
}

/// One line of an account's statement.
#[derive(Clone, Copy, Debug, PartialEq, Eq)]
pub struct StatementRow {
    /// In nanoseconds.
    pub timestamp: u64,
    pub transfer_id: u128,
    pub side: Side,
    pub kind: Kind,
    /// The stored amount.
    pub amount: Amount,
    /// The account's balances after the entry.
    pub balances: Balances,
}
