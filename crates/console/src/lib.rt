//! The page of the console, as the reply that has it.
#![tactic(auto)]

mod page;
mod reply;

pub use reply::page_reply;
