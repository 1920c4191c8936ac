//! What one message after the other is told.

mod begun;
mod chunks;
mod connections;
mod events;
mod everybody;
mod examples;
mod exchanges;
pub(crate) mod failing;
mod health;
mod looked_at;
mod memory;
pub(crate) mod messages;
mod page;
mod queries;
mod reads;
mod refusals;
mod rounds;
mod scarce;
pub(crate) mod scripts;
mod sockets;
mod statements;
