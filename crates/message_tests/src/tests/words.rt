//! Lines, words and faults.

mod addresses;
mod command_lines;
mod faults;
mod helps;
mod lines;
mod lints;
mod times;
