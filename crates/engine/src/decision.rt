use records::{Accepted, Account, AccountResult, TransferResult};

/// The decision on an account event.
#[derive(Clone, Copy, Debug, PartialEq, Eq)]
pub enum AccountDecision {
    Refuse(AccountResult),
    /// The account to keep.
    Accept(Account),
}

/// The decision on a transfer event.
#[derive(Clone, Copy, Debug, PartialEq, Eq)]
pub enum Decision {
    Refuse(TransferResult),
    /// The record to keep, with what it leaves.
    Accept(Accepted),
}
