//! How long a message may be.

/// Bytes of a head, with the empty line that ends it.
pub(crate) const MAX_HEAD: usize = 16_384;

pub(crate) const MAX_HEADERS: usize = 64;

/// Bytes of a body.
pub(crate) const MAX_BODY: usize = 2_097_152;

/// Bytes of the longest message, with its head.
pub const LONGEST_MESSAGE: usize = MAX_HEAD + MAX_BODY;
