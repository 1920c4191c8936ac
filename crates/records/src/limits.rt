//! The numbers that every ledger keeps to.

/// The greatest clock of a tenant, in nanoseconds.
pub const MAX_CLOCK: u64 = 1 << 62;

/// A second, in nanoseconds.
pub const SECOND: u64 = 1_000_000_000;

/// The most events of a batch, ids of a look-up, and entries of a page. A piece of a statement has
/// at most so many.
pub const MOST_AT_ONCE: u32 = 1000;
