//! Balances of a tenant's accounts that have changed and are not written yet.

ghost use Rattle.std.specs.Prelude.{◌≡◌, ℕ, ◌==◌, ◌+◌, ◌<◌, ◌≤◌};
ghost use Rattle.std.specs.List.{position};
ghost use Rattle.arrayvec.specs.ArrayVec.{array_vec_len};
ghost use Rattle.stored_tables.specs.Kept.{kept_in, with_balances};

use arrayvec::ArrayVec;
use records::Balances;

/// The balances of one account.
#[derive(Clone, Copy)]
pub(crate) struct KeptRow {
    pub(crate) account: u128,
    pub(crate) balances: Balances,
}

impl Default for KeptRow {
    fn default() -> KeptRow {
        KeptRow {
            account: 0,
            balances: Balances::ZERO,
        }
    }
}

/// How many accounts' balances are kept at most.
pub(crate) const MOST: usize = 128;

/// Those of so many accounts. They lie on the stack, so no memory is asked for.
pub(crate) type Kept = ArrayVec<KeptRow, MOST>;

/// The balances that are kept of an account.
pub(crate) fn kept_balances(kept: &Kept, account: u128) -> Option<Balances>
    ensures { result ≡ kept_in kept.now.items account }
{
    kept.as_slice()
        .iter()
        .find(|row| row.account == account)
        .map(|row| row.balances)
}

/// Keeps the balances of an account, in place of those that are kept of it.
pub(crate) fn keep(kept: &mut Kept, row: KeptRow)
    requires room { array_vec_len kept.old < 128 }
    ensures keeps { (other : ℕ) → kept_in kept.new.items other
        ≡ with_balances row.account row.balances (kept_in kept.old.items) other }
    ensures len { array_vec_len kept.new ≤ array_vec_len kept.old + 1 }
{
    match place(kept, row.account) {
        Some(at) => {
            kept.as_mut_slice()[at] = row;
        }
        None => {
            kept.push(row);
        }
    }
}

/// The place of an account among those that are kept.
fn place(kept: &Kept, account: u128) -> Option<usize>
    ensures { result ≡ position (λ row. row.account == account) kept.now.items }
{
    kept.as_slice()
        .iter()
        .position(|row| row.account == account)
}
