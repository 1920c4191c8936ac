//! The operator's socket: what a service is asked while it serves, and how a command asks it. A
//! message is one of HTTP/1.1 with JSON, and there is one for each connection.
//!
//! Proved is what is made of the bytes: what a message asks and what it is refused for, the bytes
//! of messages and replies, and what a reply tells. What the system does of sockets, files and
//! clocks is not, so who is connected, read and written to when is only tested.
#![tactic(auto)]

mod answer;
mod asked;
mod body;
mod caller;
mod calling;
mod copying;
mod counting;
mod desk;
mod done;
mod entries;
mod hearing;
mod listing;
mod members;
mod messages;
mod numbers;
mod orders;
mod parts;
mod piece_asked;
mod reading;
mod refusal;
mod reply;
mod socket_file;
mod stage;

pub use answer::Answer;
pub use body::{added_body, changed_body};
pub use calling::call;
pub use copying::{copied_body, copied_in};
pub use counting::{Count, CountForm, counts_body, put_counted};
pub use desk::Desk;
pub use done::{added_in, changed_in, stopped_in};
pub use entries::{Entries, entries_body, entries_in};
pub use hearing::told;
pub use listing::{TenantRow, put_listed, tenants_body};
pub use messages::{Call, message};
pub use orders::{Order, is_from_root};
pub use piece_asked::PieceAsked;
