//! Whole runs: every list of requests, new tenants and reopenings, and what each tenant sees of it.
#![tactic(auto)]

mod isolation;
mod laws;
mod named_book;
mod reopening;
mod runs;
mod steps;
mod stored;

pub use isolation::stores_are_isolated;
pub use laws::{
    names_stay, nothing_later_is_found, retries_add_nothing, runs_serve_each_alone, stays_failed,
    told_stays,
};
pub use named_book::NamedBook;
pub use reopening::Reopening;
pub use runs::run_all;
pub use steps::{Answer, Step};
