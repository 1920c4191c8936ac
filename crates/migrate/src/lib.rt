//! Migration: a ledger from an older version of the schema to a newer one. Each tenant's machine
//! stays, and its rows become those that it prescribes in the newer version.
#![tactic(auto)]

mod any_version;
mod fault;
mod filling;
pub mod laws;
mod ledger;
mod migrating;
mod naming;
mod newer;
mod older;
mod raising;

pub use fault::MigrateFault;
pub use ledger::LedgerOfVersion;
pub use migrating::migrate;
pub use newer::rows_in_version;
