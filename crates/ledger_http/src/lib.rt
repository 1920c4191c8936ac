//! Messages of HTTP/1.1: which message a reader gives first, or what has come from a client, which
//! request it asks, and the bytes of a reply.
#![tactic(auto)]

mod asking;
mod chunk;
mod closing;
mod content_type;
mod early;
mod ends;
mod head;
mod header;
mod inbox;
mod laws;
mod limits;
mod message;
mod progress;
mod reading;
mod refusal;
mod reply;
mod request;
mod route;
mod routing;
mod text;
mod writing;

pub use asking::asked;
pub use chunk::put_chunk;
pub use closing::is_closing;
pub use content_type::ContentType;
pub use early::Early;
pub use inbox::{Inbox, Next};
pub use laws::{later_bytes_change_nothing, meanings_are_unique, messages_stand_alone};
pub use limits::LONGEST_MESSAGE;
pub use message::{Message, ReadError, read_message};
pub use refusal::Refusal;
pub use reply::Reply;
pub use request::Asked;
pub use route::Route;
pub use text::Text;
pub use writing::{WriteError, write_reply};
