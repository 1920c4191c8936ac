//! The ledgers of many tenants in one database: batches of work, and what a crash leaves of them.
#![tactic(auto)]

mod at_path;
mod ledgers;
mod memory;
mod names;
mod overdue;
mod place;
mod reopening;
mod store;

pub use openings::auditing::{Audit, FullAudit};
pub use openings::opening::OpenFault;
pub use openings::refused::Refused;
pub use store::Store;
pub use stored_ledgers::directory::ListedTenant;
pub use stored_ledgers::joining::AddTenant;
pub use stored_ledgers::keying::ChangeKey;
pub use stored_ledgers::laws::{joining_adds_one, keying_moves_key, names_are_given};
pub use stored_ledgers::overdue::{Overdue, Search};
