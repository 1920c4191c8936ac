//! The rows of a newer schema.

ghost use Rattle.std.specs.Prelude.{◌≡◌, map, IfOk, IsPermutation};
ghost use Rattle.std.specs.BTreeMap as tree;
ghost use Rattle.std.specs.Ordering.{nat_cmp};
ghost use Rattle.records.specs.Machine.{Machine};
ghost use Rattle.rows.specs.Prescribed.{balance_rows, status_rows};
ghost use Rattle.rows.specs.Tables.{IsAscendingBy};
ghost use Rattle.running.specs.Running.{IsRunning};

use crate::Running;
use records::AccountWithBalances;
use rows::{BalanceRow, StatusRow};
use std::alloc::{AllocError, Global};
use std::collections::BTreeMap;

impl Running {
    /// The balance rows, in order of account.
    pub fn balance_rows(&self, alloc: Global) -> Result<Vec<BalanceRow>, AllocError>
        ensures in_order { IfOk result (λ rows. IsAscendingBy (λ row. row.account) rows.items) }
        ensures all { IfOk result
            (λ rows. (m : Machine) →
            IsRunning m self.now → IsPermutation (balance_rows m) rows.items) }
    {
        balances(&self.accounts, alloc)
    }

    /// The status rows of all pending transfers, in order of transfer.
    pub fn status_rows(&self, alloc: Global) -> Result<Vec<StatusRow>, AllocError>
        ensures in_order { IfOk result (λ rows. IsAscendingBy (λ row. row.transfer) rows.items) }
        ensures all { IfOk result
            (λ rows. (m : Machine) →
            IsRunning m self.now → IsPermutation (status_rows m) rows.items) }
    {
        self.statuses.all(alloc)
    }
}

fn balances(
    accounts: &BTreeMap<u128, AccountWithBalances>,
    alloc: Global,
) -> Result<Vec<BalanceRow>, AllocError>
    ensures rows { IfOk result
        (λ rows. rows.items
        ≡ map (λ entry. record { account = entry.0; balances = entry.1.balances })
        accounts.now.entries) }
    ensures in_order { tree.IsOrdered nat_cmp accounts.now }
{
    accounts
        .iter()
        .map(|(id, found)| BalanceRow {
            account: *id,
            balances: found.balances,
        })
        .collect(alloc)
}
