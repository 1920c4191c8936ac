use crate::PendingState;

/// What has become of a pending transfer.
#[derive(Clone, Copy, Debug, PartialEq, Eq)]
pub struct Hold {
    pub id: u128,
    /// When it was accepted, in nanoseconds.
    pub timestamp: u64,
    /// When it expires, in nanoseconds; 0 is never.
    pub due: u64,
    pub state: PendingState,
}
