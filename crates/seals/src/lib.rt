//! A tenant's seal: a digest of its accounts and transfers, which grows by one step for each.
#![tactic(auto)]

mod laws;
mod record;
mod seal;

pub use laws::{law_equal_seals_mean_equal_records, law_seal_goes_on};
pub use record::Record;
pub use seal::Seal;
