//! Retries beside the records that exist, readers and writers, and words of faults.

mod comparisons;
mod streams;
mod unavailable;
