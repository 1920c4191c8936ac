//! Look-ups by id, as work on one tenant's tables.

ghost use Rattle.std.specs.Prelude.{◌≡◌, ◌≤◌, ℕ, Option};
ghost use Rattle.std.specs.List.{filter_map};
ghost use Rattle.records.specs.Due.{due_of};
ghost use Rattle.records.specs.Facts.{account_in};
ghost use Rattle.records.specs.Machine.{Machine, transfer_with};
ghost use Rattle.records.specs.Queries.{hold_in, hold_of, shown_due};
ghost use Rattle.records.specs.Step.{max_clock};
ghost use Rattle.chain.specs.LedgerReads.{seen_of_list};
ghost use Rattle.chain.specs.Looks.{Searches, Shows};

use crate::{Listed, Tables, Work};
use engine::due;
use records::{AccountWithBalances, Hold, MAX_CLOCK, Transfer, Unavailable};
use std::alloc::Global;

/// A kind of record that is looked up by its id.
pub(crate) trait ById {
    type Found: Drop;

    // What a machine has under an id.
    ghost found_in: { Machine → ℕ → Option Self.Found };

    /// What there is under an id.
    fn find<T: Tables>(&self, tables: &mut T, id: u128) -> Result<Option<Self::Found>, Unavailable>
        requires { T.means.is_usable tables.old }
        ensures { Searches T.means (λ m found. found ≡ found_in m id)
            tables.old tables.new result };
}

/// Accounts by id, with their balances at the clock.
#[derive(Drop)]
pub(crate) struct AccountsById;

impl ById for AccountsById {
    type Found = AccountWithBalances;

    ghost found_in = { account_in };

    fn find<T: Tables>(
        &self,
        tables: &mut T,
        id: u128,
    ) -> Result<Option<AccountWithBalances>, Unavailable> {
        tables.account(id)
    }
}

/// Transfers by id.
#[derive(Drop)]
pub(crate) struct TransfersById;

impl ById for TransfersById {
    type Found = Transfer;

    ghost found_in = { λ m id. transfer_with id m.transfers };

    fn find<T: Tables>(&self, tables: &mut T, id: u128) -> Result<Option<Transfer>, Unavailable> {
        tables.transfer(id)
    }
}

/// Holds by id.
#[derive(Drop)]
pub(crate) struct HoldsById;

impl ById for HoldsById {
    type Found = Hold;

    ghost found_in = { hold_in };

    fn find<T: Tables>(&self, tables: &mut T, id: u128) -> Result<Option<Hold>, Unavailable> {
        let Some(transfer) = tables.transfer(id)? else {
            return Ok(None);
        };
        hold_of(tables, &transfer)
    }
}

/// What has become of a transfer of the tables, if it is a pending one.
pub(crate) fn hold_of<T: Tables>(
    tables: &mut T,
    transfer: &Transfer,
) -> Result<Option<Hold>, Unavailable>
    requires usable { T.means.is_usable tables.old }
    requires held { T.means.is_live tables.old →
        transfer_with transfer.now.id (T.means.state tables.old).now.transfers
        ≡ Some transfer.now }
    ensures { Searches T.means (λ m found. found ≡ hold_of m transfer.now)
        tables.old tables.new result }
{
    let Some(state) = tables.pending_state(transfer.id)? else {
        return Ok(None);
    };
    Ok(Some(Hold {
        id: transfer.id,
        timestamp: transfer.timestamp,
        due: due_or_never(transfer),
        state,
    }))
}

/// When a transfer expires, in nanoseconds; 0 is never. Tables that are no longer live may show any
/// timestamp.
fn due_or_never(transfer: &Transfer) -> u64
    ensures { transfer.now.timestamp ≤ max_clock → result ≡ shown_due (due_of transfer.now) }
{
    if transfer.timestamp > MAX_CLOCK {
        return 0;
    }
    due(transfer).unwrap_or(0)
}

/// Looks up what there is under these ids, in the order asked.
#[derive(Drop)]
pub(crate) struct Lookup<'a, B> {
    pub(crate) alloc: Global,
    pub(crate) by: B,
    pub(crate) ids: &'a [u128],
}

impl<B: ById + Drop> Work for Lookup<'_, B> {
    type Output = Listed<B::Found>;

    ghost gives = { λ work. Shows seen_of_list (λ m. filter_map (B.found_in m) work.ids.now) };

    fn run<T: Tables>(self, tables: &mut T) -> Result<Listed<B::Found>, Unavailable> {
        let clock = tables.clock()?;
        let entries = found(self.alloc, tables, &self.by, self.ids)?;
        Ok(Listed { clock, entries })
    }
}

/// What there is under these ids.
fn found<T: Tables, B: ById>(
    alloc: Global,
    tables: &mut T,
    by: &B,
    ids: &[u128],
) -> Result<Vec<B::Found>, Unavailable>
    requires { T.means.is_usable tables.old }
    ensures { Searches T.means (λ m found. found.items ≡ filter_map (B.found_in m) ids.now)
        tables.old tables.new result }
{
    let mut found = Vec::new(alloc);
    for id in ids {
        if let Some(record) = by.find(tables, *id)? {
            found.push(record)?;
        }
    }
    Ok(found)
}
