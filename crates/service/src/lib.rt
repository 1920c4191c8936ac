//! The service: a message's bytes, a reply's bytes, and the ledgers of many tenants of which only
//! the caller's changes. It stands on any ledgers, in memory or on a disk.
#![tactic(auto)]

mod answering;
mod batches;
mod begun;
mod exchanging;
mod laws;
mod linting;
mod moments;
mod querying;
mod reading;
mod responding;
mod round;
mod serving;
mod settles;
mod showing;
mod statements;
mod turns;

pub use begun::Begun;
pub use laws::{
    connections_are_courses, connections_serve_each_alone, each_tenant_sees_itself,
    failed_in_course_stays_failed, health_tells_nothing, ledgers_are_sound, left_in_course_stays,
    messages_answered_alone, page_tells_nothing, responses_happen, responses_move,
    responses_move_within, retried_in_course_adds_nothing, rounds_answer_each,
    service_books_nothing, tenants_are_isolated, told_in_course_stays,
};
pub use moments::Moments;
pub use responding::{begin, respond};
pub use round::respond_round;
pub use serving::{ServeFault, serve};
pub use settles::Settles;
pub use turns::{Message, Turns};
