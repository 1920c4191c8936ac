//! What bodies mean, and what replies spell. That the one is read and the other is written is
//! proved; here stand bodies and replies as they are sent.

mod deep;
mod detail;
mod judging;
mod pages;
mod reading;
mod writing;
