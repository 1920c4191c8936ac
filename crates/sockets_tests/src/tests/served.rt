//! Steps of a service and its clients.

mod exchanging;
mod leaving;
mod limits;
mod operator;
mod other_end;
mod pouring;
mod scene;
mod steps;
mod stopping;
