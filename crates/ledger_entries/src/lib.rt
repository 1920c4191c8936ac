//! An account's entries over trees: the rows of its history, each with the transfer of its time.
#![tactic(auto)]

mod entries;
mod handing;
mod history;

pub use entries::{first_entries_from, first_entries_until};
pub use history::TenantAccount;
