//! The texts of the commands: names, keys, ids, versions, addresses, routes and moments read from
//! words, and the lines that tell answers and faults.
#![tactic(auto)]

mod body_lines;
mod date;
mod fault;
mod lines;
mod linting;
mod moments;
mod words;

pub use fault::Fault;
pub use lines::{
    damage_line, put_added, put_changed, put_copied, put_count, put_key, put_metric, put_schema,
    put_stopped, put_tenant, put_tenants, put_text, tell_fault, tell_fault_for, tell_new_ledger,
};
pub use linting::lint;
pub use moments::{first_moment, last_moment};
pub use words::{account_id, address, key_digest, name, version};
