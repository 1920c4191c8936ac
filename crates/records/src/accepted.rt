use crate::{Balances, Transfer};

/// What an entry does to the pending transfer with this id.
#[derive(Clone, Copy, Debug, PartialEq, Eq)]
pub enum Ending {
    Posted(u128),
    Voided(u128),
}

/// What an accepted transfer leaves.
#[derive(Clone, Copy, Debug, PartialEq, Eq)]
pub struct Accepted {
    /// The record to keep.
    pub stored: Transfer,
    /// The balances of its debit account with it.
    pub debit_after: Balances,
    /// The balances of its credit account with it.
    pub credit_after: Balances,
    /// How it ends a pending transfer, for a post or void.
    pub ends: Option<Ending>,
}
