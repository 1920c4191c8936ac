use records::Balances;

/// The balances of an account at the tenant's clock.
#[derive(Clone, Copy, Debug, PartialEq, Eq)]
pub struct BalanceRow {
    /// The account's id.
    pub account: u128,
    pub balances: Balances,
}
