//! Many clients served at once, by what peers tell: who is connected, what came, what was taken.
#![tactic(auto)]

mod batch;
mod finishing;
mod gathered;
mod gathering;
mod laws;
mod peers;
mod putting;
mod ring;
mod round;
mod seats;
mod serving;
mod sharing;
mod step;
mod steward;
mod tenant;
mod turn;

pub use batch::Batch;
pub use finishing::write_rest;
pub use laws::{
    each_is_served, moments_rise, only_what_is_asked_is_booked, serving_begins_empty,
    serving_goes_on, serving_is_a_course, serving_is_a_run, serving_is_a_run_of_calls,
    turns_go_round,
};
pub use peers::{Peers, Read, Told, Written};
pub use seats::Seats;
pub use serving::serve_ready;
pub use steward::Steward;
