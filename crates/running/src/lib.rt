//! One tenant's ledger in ordered maps: what a transfer event meets, one entry more, a later clock,
//! and the replay of a tenant's entries from nothing. Each takes time by the number of entries only
//! as a search in a map does.
#![tactic(auto)]

mod accounts;
mod apply;
mod entry;
mod events;
mod facts;
mod history;
mod replaying;
mod running;
mod settle;
mod source;
mod statuses;
mod tables;
mod transfers;

pub use entry::Entry;
pub use history::HistoryTaker;
pub use replaying::{
    ReplayFault, failed_ids_stand_apart, replay, replay_from, replayed_is_valid, valid_replays,
};
pub use running::Running;
pub use source::EntrySource;
