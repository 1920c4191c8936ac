//! How the tables of a ledger lie in trees: the rows of each table, its keys, and the values of
//! both. Each column stands here once.
#![tactic(auto)]

mod causes;
mod file_rows;
mod indexes;
mod key_values;
mod keys;
mod kind;
mod kinds;
mod laws;
mod layout;

pub use causes::cause;
pub use file_rows::{ClockRow, TenantEntry, VersionRow};
pub use key_values::{
    write_digest_key, write_entry_key, write_id_key, write_name_key, write_tenant_key,
    write_time_key,
};
pub use keys::{ByDigest, ByEntry, ById, ByName, ByTime};
pub use kind::{Identified, Kind, TenantRow, Timed};
pub use kinds::FailedCells;
pub use laws::law_committed_trees_are_sound;
pub use layout::LedgerLayout;
