use records::Balances;

/// The balances of one of a transfer's two accounts, directly after that transfer.
#[derive(Clone, Copy, Debug, PartialEq, Eq)]
pub struct HistoryRow {
    /// The account's id.
    pub account: u128,
    /// The transfer's timestamp, in nanoseconds.
    pub timestamp: u64,
    pub balances: Balances,
}
