//! A body of transfers, answered over lists: the whole path of a request but its message, for one
//! tenant of a book of several.
#![tactic(auto)]

mod plain_reply;
mod printing;
mod responding;
mod sample_book;
#[cfg(test)]
mod tests;

pub use plain_reply::PlainReply;
pub use printing::printed;
pub use responding::{isolates, respond_plain, responses_lead_on};
