use records::PendingState;

/// What has become of a pending transfer at the tenant's clock.
#[derive(Clone, Copy, Debug, PartialEq, Eq)]
pub struct StatusRow {
    /// The pending transfer's id.
    pub transfer: u128,
    pub state: PendingState,
    /// When it expires unless it is ended before, in nanoseconds. It stays when the transfer ends.
    pub due: Option<u64>,
}
