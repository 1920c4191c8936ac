use records::{Account, Transfer};

/// An entry of a tenant, as it was accepted.
#[derive(Clone, Copy, Debug, PartialEq, Eq)]
pub enum Entry {
    /// An account was opened.
    Opened(Account),
    /// A transfer was made.
    Moved(Transfer),
}
