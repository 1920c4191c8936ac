//! The tables of one tenant over plain lists, searched and summed anew at each call, and a book of
//! several tenants.
#![tactic(auto)]

mod balances;
mod book;
mod book_ledgers;
mod entries;
mod fate;
mod page;
mod plain_tables;
mod search;

pub use book::Book;
pub use plain_tables::PlainTables;
