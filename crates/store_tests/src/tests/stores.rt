//! Stores by scripts of commands and answers. What is expected is of `docs/MODEL.md`.

mod at_path;
mod bench;
mod commands;
mod driven;
mod events;
mod examples;
mod faults;
mod keys;
mod memory;
mod on_files;
mod opened_files;
mod overdue;
mod playing;
mod read_answers;
mod reads;
mod released;
mod rounds;
mod scarce_reads;
mod stops;
mod tables;
