use records::{Balances, Transfer};

/// What a transfer's expiry leaves: the transfer, and the balances of its two accounts without its
/// amount.
#[derive(Clone, Copy)]
pub(crate) struct Expiry {
    pub(crate) transfer: Transfer,
    pub(crate) debit: Balances,
    pub(crate) credit: Balances,
}
