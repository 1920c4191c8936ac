//! One tenant's tables in a database: what the ledger's core asks of them in a batch.
#![tactic(auto)]

mod accepting;
mod account_entries;
mod batch;
mod bounds;
mod changing;
mod due_times;
mod entries;
mod entries_within;
mod expiring;
mod expiry;
mod failing;
mod flushing;
mod kept;
mod laws;
mod reading;
mod settling;
mod spans;

pub use batch::{Batch, TenantNumber};
pub use due_times::forget_past;
pub use laws::held_machines;
