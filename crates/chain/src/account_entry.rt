ghost use Rattle.std.specs.Prelude.{◌≡◌};
ghost use Rattle.chain.specs.AccountEntries.{balance_of, row_of};

use records::{BalanceAt, Balances, StatementRow, Transfer};

/// An entry of an account, with the account's balances after it.
#[derive(Clone, Copy, Debug, PartialEq, Eq)]
pub struct AccountEntry {
    pub transfer: Transfer,
    /// By the entries up to this one, with expiry judged at the clock of its batch.
    pub balances: Balances,
}

impl AccountEntry {
    /// The balances, with the entry's timestamp.
    pub(crate) fn balance_at(&self) -> BalanceAt
        ensures { result ≡ balance_of self.now }
    {
        BalanceAt {
            timestamp: self.transfer.timestamp,
            balances: self.balances,
        }
    }

    /// The line of the account's statement.
    pub(crate) fn statement_row(&self, account: u128) -> StatementRow
        ensures { result ≡ row_of account self.now }
    {
        StatementRow {
            timestamp: self.transfer.timestamp,
            transfer_id: self.transfer.id,
            side: self.transfer.side_of(account),
            kind: self.transfer.flags.kind(),
            amount: self.transfer.amount,
            balances: self.balances,
        }
    }
}
