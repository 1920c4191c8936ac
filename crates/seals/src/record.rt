use records::{Account, Transfer};

/// What a tenant's seal goes over: an account or a transfer that was accepted.
#[derive(Clone, Copy, Debug, PartialEq, Eq)]
pub enum Record {
    Account(Account),
    Transfer(Transfer),
}
