//! Clients of a service, callers of its operator, and copies of its files, in one thread.

mod copied;
mod desk;
mod served;
