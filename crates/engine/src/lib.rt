//! The decision on one event: refused with a result, or accepted with the record to keep. No call
//! takes memory, reads a clock or changes anything.
#![tactic(auto)]

mod accept;
mod accounts;
mod after;
mod amounts;
mod decision;
mod ending_law;
mod entries_law;
mod following_laws;
mod laws;
mod pending;
mod refusals;
mod retry_laws;
mod settling_laws;
mod step_laws;
mod transfers;

pub use accounts::decide_account;
pub use decision::{AccountDecision, Decision};
pub use ending_law::endings_are_told;
pub use entries_law::{entries_come_in_turn, valid_exactly_entry_by_entry};
pub use following_laws::{
    continued_of_continued_continues, followers_get_each_once, steps_continue,
    steps_tell_their_clock, what_was_told_stays,
};
pub use laws::{
    account_changes_nothing, books_balance, ends_once, failed_ids_hold, limits_hold,
    release_is_without, sent_again_is_same, sums_fit,
};
pub use pending::{due, release};
pub use retry_laws::{failed_stays_failed, retry_adds_nothing};
pub use settling_laws::settling_first_changes_nothing;
pub use step_laws::{later_of_later_is_later, steps_lead_to_later, steps_stay_valid};
pub use transfers::decide_transfer;
