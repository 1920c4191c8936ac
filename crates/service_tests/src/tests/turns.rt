//! Clients by a script of readiness, each of whom has a turn.

mod failing;
mod neighbours;
mod rounds;
pub(crate) mod scripted;
mod serving;
mod statements;
