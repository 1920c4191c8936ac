//! Messages and replies, their bodies, statements, and the words of commands.

mod asserting;
mod bodies;
mod messages;
mod statements;
mod words;
