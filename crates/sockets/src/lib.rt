//! Clients over sockets of the machine, by readiness: who is connected, what came and what was
//! taken, and how long and how much each may wait.
#![tactic(auto)]

mod closing;
mod counts;
mod door;
mod exchanging;
mod guests;
mod limits;
mod line;
mod lingering;
mod operator;
mod own_time;
mod peer;
mod reading;
mod room;
mod shortage;
mod sockets;
mod stages;
mod tokens;
mod waiting;
mod watcher;

pub use counts::Counts;
pub use limits::Limits;
pub use operator::Operator;
pub use sockets::Sockets;
pub use watcher::Watcher;
