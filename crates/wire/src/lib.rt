//! The bodies of a ledger's messages: what the JSON of a request means, and the JSON of a reply.
#![tactic(auto)]

mod batch_text;
mod body;
mod body_fault;
mod detailed;
mod faults;
mod field_name;
mod fields;
mod item;
mod items;
mod known_objects;
mod listed;
mod members;
mod misfit;
mod object;
mod outcome;
mod page_text;
mod read;
mod reading;
mod refusal;
mod reply_result;
mod request;
mod shown;
mod tree;
mod wanted;
mod writing;

pub use batch_text::{batch_text_accounts, batch_text_transfers};
pub use body::{read_accounts, read_transfers};
pub use body_fault::BodyFault;
pub use detailed::{law_no_detail_unless_asked, refused_reply};
pub use faults::{fault_in, tells_what_is_refused};
pub use field_name::FieldName;
pub use fields::{numbers_are_canonical, read_number};
pub use items::Items;
pub use listed::list_text;
pub use members::{Member, object_text, write_member, write_object};
pub use outcome::{Entries, Outcome};
pub use read::{Query, Read};
pub use reading::meaning;
pub use refusal::refusal_text;
pub use request::Request;
pub use shown::{Form, Plain, Shown};
pub use wanted::Wanted;
pub use writing::{NoMemory, reply_bytes};
