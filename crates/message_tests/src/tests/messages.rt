//! Messages as bytes: heads, lengths, what comes in pieces, routes, keys and replies.

mod arriving;
mod asking;
mod closing;
mod reading;
mod replies;
mod sample;
