//! A ledger of version 1, as a program before this one would have written it: accounts 1, 2 and 3,
//! a pending transfer of 100 at 5 with a timeout of a second, and the clock at which its post was
//! refused as too late.

use super::database::changed;
use sqlite::{Error, Files};
use sqlite_disk::Memory;
use std::alloc::Global;

/// The digest of the one tenant.
pub const DIGEST: [u8; 32] = [1; 32];

/// What writes it into an empty database.
pub static LEDGER: [&str; 14] = [
    "BEGIN",
    "CREATE TABLE schema (one INTEGER PRIMARY KEY NOT NULL CHECK (one = 1), version INTEGER NOT \
        NULL) STRICT",
    "CREATE TABLE tenant (no INTEGER PRIMARY KEY NOT NULL, name TEXT NOT NULL UNIQUE, digest BLOB \
        NOT NULL UNIQUE CHECK (length(digest) = 32)) STRICT",
    "CREATE TABLE clock (tenant INTEGER PRIMARY KEY NOT NULL REFERENCES tenant (no), clock \
        INTEGER NOT NULL) STRICT",
    "CREATE TABLE account (tenant INTEGER NOT NULL REFERENCES tenant (no), id BLOB NOT NULL CHECK \
        (length(id) = 16), user_data_128 BLOB NOT NULL CHECK (length(user_data_128) = 16), \
        user_data_64 BLOB NOT NULL CHECK (length(user_data_64) = 8), user_data_32 INTEGER NOT \
        NULL, ledger INTEGER NOT NULL, code INTEGER NOT NULL, flags INTEGER NOT NULL, timestamp \
        INTEGER NOT NULL, PRIMARY KEY (tenant, id), UNIQUE (tenant, timestamp)) STRICT",
    "CREATE TABLE transfer (tenant INTEGER NOT NULL REFERENCES tenant (no), id BLOB NOT NULL \
        CHECK (length(id) = 16), debit BLOB NOT NULL CHECK (length(debit) = 16), credit BLOB NOT \
        NULL CHECK (length(credit) = 16), amount BLOB NOT NULL CHECK (length(amount) = 16), \
        pending_id BLOB NOT NULL CHECK (length(pending_id) = 16), user_data_128 BLOB NOT NULL \
        CHECK (length(user_data_128) = 16), user_data_64 BLOB NOT NULL CHECK \
        (length(user_data_64) = 8), user_data_32 INTEGER NOT NULL, timeout INTEGER NOT NULL, \
        ledger INTEGER NOT NULL, code INTEGER NOT NULL, flags INTEGER NOT NULL, timestamp INTEGER \
        NOT NULL, at_clock INTEGER NOT NULL, PRIMARY KEY (tenant, id), UNIQUE (tenant, \
        timestamp)) STRICT",
    "INSERT INTO schema (version) VALUES (1)",
    "INSERT INTO tenant (no, name, digest) VALUES (7, 'north', \
        X'0101010101010101010101010101010101010101010101010101010101010101')",
    "INSERT INTO clock (tenant, clock) VALUES (7, 1000000005)",
    "INSERT INTO account VALUES (7, X'00000000000000000000000000000001', \
        X'00000000000000000000000000000000', X'0000000000000000', 0, 7, 10, 0, 1)",
    "INSERT INTO account VALUES (7, X'00000000000000000000000000000002', \
        X'00000000000000000000000000000000', X'0000000000000000', 0, 7, 10, 0, 2)",
    "INSERT INTO account VALUES (7, X'00000000000000000000000000000003', \
        X'00000000000000000000000000000000', X'0000000000000000', 0, 7, 10, 10, 3)",
    "INSERT INTO transfer VALUES (7, X'00000000000000000000000000000064', \
        X'00000000000000000000000000000001', X'00000000000000000000000000000002', \
        X'00000000000000000000000000000064', X'00000000000000000000000000000000', \
        X'00000000000000000000000000000000', X'0000000000000000', 0, 1, 7, 1, 2, 5, 5)",
    "COMMIT",
];

/// The ledger in memory.
pub fn in_memory(alloc: Global) -> Result<Files<Memory>, Error> {
    changed(alloc, empty(alloc), &LEDGER)
}

/// Empty files in memory.
pub fn empty(alloc: Global) -> Files<Memory> {
    Files {
        log: Memory::new(alloc),
        db: Memory::new(alloc),
    }
}
