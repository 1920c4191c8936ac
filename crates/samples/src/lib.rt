//! Accounts and transfers as the tests of several crates write them, in the fewest words: of ledger
//! 7, and with nothing but what a test is about.
#![tactic(auto)]

mod events;
mod flags;

pub use events::{account, balances, post, transfer, void, with};
pub use flags::{
    BALANCING_CREDIT, BALANCING_DEBIT, KEEPS_HISTORY, LIMITS_CREDITS, LIMITS_DEBITS, LINKED,
    PENDING, POST, VOID,
};
