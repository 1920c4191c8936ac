//! The decision on one event by what it meets.

mod accounts;
mod balancing;
mod deciding;
mod endings;
mod facts;
mod refusals;
