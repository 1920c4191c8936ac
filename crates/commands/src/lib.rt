//! The commands of `ledgerd`: words in, a text and a status out, over files and sockets of the
//! machine.
#![tactic(auto)]

mod behind;
mod changing;
mod contents;
mod copied;
mod counting;
mod desk;
mod ended;
mod file_serving;
mod kept;
mod laws;
mod leaving;
mod listing;
mod marked;
mod opening;
mod orders;
mod over_files;
mod over_tenants;
mod pieces;
mod reasons;
mod renewing;
mod serving;
mod settling;
mod status;
mod store_serving;
mod stores;
mod whole_program;

pub use file_serving::{HostService, serve_file};
pub use laws::{pieces_are_read_back, pieces_make_the_whole, settling_shows_nowhere};
pub use orders::{Done, Order, Orders};
pub use reasons::{Place, tell_file_fault};
pub use renewing::Home;
pub use serving::Served;
pub use store_serving::{EndedService, serve_store};
pub use whole_program::program;
