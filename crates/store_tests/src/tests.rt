//! Ledgers on disks in memory that may stop or fail, and in files.

mod disks;
mod metered;
mod migrations;
mod stores;
mod works;
