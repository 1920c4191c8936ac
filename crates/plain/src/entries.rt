//! An account's entries, each with the sums of the entries up to it.
ghost use Rattle.std.specs.Prelude.{◌≡◌, ◌+◌, ◌<◌, [], length, take, map, filter, slice_index_or};
ghost use Rattle.std.specs.Prelude.{IfOk};
ghost use Rattle.records.specs.declared.transfer.Transfer.{Transfer};
ghost use Rattle.records.specs.Balances.{balances_of};
ghost use Rattle.records.specs.Reads.{entries_after, is_entry_of};
ghost use Rattle.chain.specs.AccountEntries.{account_entry};
ghost use Rattle.plain.specs.Prefixes.{PrefixesFit};

use crate::balances::balances;
use chain::AccountEntry;
use records::{Balances, Transfer};
use std::alloc::{AllocError, Global};

// An account's balances after the entry at this place.
fn balances_after(entries: &[Transfer], place: usize, account: u128) -> Balances
    requires within { place < length entries.now }
    requires fits { PrefixesFit entries.now account }
    ensures { (entry : Transfer) → entry ≡ slice_index_or entries.now place entry
        → result ≡ balances_of (take (place + 1) entries.now) entry.at account }
{
    balances(&entries[..place + 1], entries[place].at, account)
}

/// An account's entries, oldest first, each with the account's balances after it.
pub(crate) fn account_rows(
    alloc: Global,
    entries: &[Transfer],
    account: u128,
) -> Result<Vec<AccountEntry>, AllocError>
    requires { PrefixesFit entries.now account }
    ensures { IfOk result (λ rows. rows.items ≡ map (account_entry account)
        (filter (λ entry. is_entry_of account entry.transfer) (entries_after [] entries.now))) }
{
    let mut rows = Vec::new(alloc);
    for (place, entry) in entries.iter().enumerate() {
        if !entry.is_entry_of(account) {
            continue;
        }
        rows.push(AccountEntry {
            transfer: *entry,
            balances: balances_after(entries, place, account),
        })?;
    }
    Ok(rows)
}
