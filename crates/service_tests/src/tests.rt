//! What messages of several firms are told over ledgers in memory: each by itself, over a
//! connection, and those of many clients in turn.

mod answers;
mod asserting;
mod booked;
mod firms;
mod frail;
mod messages;
mod talking;
mod turns;
