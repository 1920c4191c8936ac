//! The records of FILE-sums.

/// One record. A log is named by its salt: the 8 bytes at 16 of its header, as a number.
#[derive(Clone, Copy, Debug, PartialEq, Eq)]
pub enum Record {
    /// What the log had stands in the file, and these are the digests of the pages that changed.
    /// Their place in the format is kept; what they say is passed over.
    Pages,
    /// The log with this salt is in use.
    Log(u64),
    /// The log that was in use has nothing that the file lacks, and another one is to be made.
    NoLog,
    /// Everything up to this moment was committed, in nanoseconds since 1970.
    Mark(u64),
    /// The page at this place, counted from 0, was found to be damaged.
    Doubt(u32),
}
