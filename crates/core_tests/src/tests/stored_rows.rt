//! Records as the cells of a file, and cells as records.

mod accounts;
mod balances;
mod statuses;
mod transfers;
