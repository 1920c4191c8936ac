//! What callers of an operator's socket are told.

mod answers;
mod copy_orders;
mod done;
mod ends;
mod lists;
mod pieces;
mod refusals;
mod scene;
mod steps;
