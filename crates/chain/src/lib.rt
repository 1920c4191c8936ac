//! Batches and chains of linked events, run over any tables that keep one tenant's list.
#![tactic(auto)]

mod account_entry;
mod backend;
mod batch;
mod chains;
mod events;
mod facts;
mod histories;
mod in_use;
mod ledgers;
mod lookups;
mod pages;
mod pieces;
mod query;
mod reading;
mod reads;
mod rounds;
mod tables;
mod work;

pub use account_entry::AccountEntry;
pub use backend::{Backend, RoundBackend};
pub use batch::run_batch;
pub use events::{BatchEvent, run_accounts, run_transfers};
pub use facts::transfer_facts;
pub use in_use::InUse;
pub use ledgers::{BatchFault, Ledgers};
pub use reads::{Listed, QueryPage, ReadFault};
pub use records::BatchReply;
pub use rounds::{RoundWork, Rounds};
pub use tables::Tables;
pub use work::Work;
