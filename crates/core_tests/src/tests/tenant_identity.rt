//! Keys and their digests, and names.

mod keys;
mod names;
