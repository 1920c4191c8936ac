ghost use Rattle.std.specs.Prelude.{◌≡◌, ◌≤◌, ◌^◌};
ghost use Rattle.records.specs.declared.side.Side.TheVariants.{Debit, Credit};
ghost use Rattle.records.specs.Due.{due_of};
ghost use Rattle.engine.specs.After.{balances_released};

use crate::amounts::sums_without;
use amount::Amount;
use records::{Balances, SECOND, Side, Transfer};

/// When a pending transfer with a timeout expires, in nanoseconds: at a clock of this or later it
/// can no longer be posted or voided. No other transfer expires.
pub fn due(transfer: &Transfer) -> Option<u64>
    requires { transfer.now.timestamp ≤ 2 ^ 62 }
    ensures { result ≡ due_of transfer.now }
{
    if transfer.flags.is_pending() && transfer.timeout > 0 {
        Some(transfer.timestamp + u64::from(transfer.timeout) * SECOND)
    } else {
        None
    }
}

/// The balances of a debit and a credit account once a pending transfer of this amount between them
/// is no longer open and nothing of it is posted.
pub fn release(debit: Balances, credit: Balances, amount: Amount) -> (Balances, Balances)
    requires debit { amount ≤ debit.debits.pending }
    requires credit { amount ≤ credit.credits.pending }
    ensures debit { result.0 ≡ balances_released Debit debit amount }
    ensures credit { result.1 ≡ balances_released Credit credit amount }
{
    (
        balances_released(Side::Debit, debit, amount),
        balances_released(Side::Credit, credit, amount),
    )
}

fn balances_released(side: Side, balances: Balances, amount: Amount) -> Balances
    ensures { result ≡ balances_released side balances amount }
{
    balances.with_sums(side, sums_without(balances.sums_on(side), amount))
}
