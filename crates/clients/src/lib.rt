//! Many clients at once: what each has sent and is answered, in whatever order and whatever pieces
//! it comes.
#![tactic(auto)]

mod client;
mod exchanging;
mod laws;
mod outbox;

pub use client::{Answered, Client};
pub use laws::{
    clients_are_courses, clients_are_served, clients_are_served_in_rounds, clients_hear_their_own,
    clients_serve_each_alone, giving_up_replies, rounds_reply, whole_ledgers_are_seen,
};
