//! What has become of each pending transfer, and which of them can expire next.

ghost use Rattle.std.specs.Prelude.{◌≡◌, ◌≤◌, ℕ, ◌+◌, ◌^◌, true, false, not, ◌==◌, ◌&&◌, ◌||◌, List, [], ◌∷◌, ◌++◌, map, Some, None, IsTrue, OnOk, IfOk, IfSome, IfNone};
ghost use Rattle.std.specs.BTreeMap as tree;
ghost use Rattle.std.specs.BTreeSet as sorted;
ghost use Rattle.std.specs.Ordering.{nat_cmp};
ghost use Rattle.records.specs.declared.facts.PendingState.TheVariants as state;
ghost use Rattle.records.specs.Fate.{is_open};
ghost use Rattle.rows.specs.declared.status_row.StatusRow.{StatusRow};
ghost use Rattle.rows.specs.Settling.{is_due_row};
ghost use Rattle.running.specs.Holds.{HoldsStatuses, status_with, key_cmp, is_time};
ghost use Rattle.rows.specs.Changes.{set_state, ended, new_statuses};

use engine::due;
use records::{Ending, PendingState, Transfer};
use rows::StatusRow;
use std::alloc::{AllocError, Global};
use std::collections::{BTreeMap, BTreeSet};

/// The status rows by transfer, and the due times of the open transfers in order.
#[derive(Debug, Drop)]
pub(crate) struct Statuses {
    rows: BTreeMap<u128, StatusRow>,
    due: BTreeSet<(u64, u128)>,
}

impl Statuses {
    pub(crate) fn new(alloc: Global) -> Statuses
        ensures { HoldsStatuses [] result }
    {
        Statuses {
            rows: BTreeMap::new(alloc),
            due: BTreeSet::new(alloc),
        }
    }

    pub(crate) fn get(&self, transfer: u128) -> Option<StatusRow>
        ensures { (rows : List StatusRow) →
            HoldsStatuses rows self.now → result ≡ status_with transfer rows }
    {
        self.rows.get(&transfer).copied()
    }

    // All rows, in order of transfer.
    pub(crate) fn all(&self, alloc: Global) -> Result<Vec<StatusRow>, AllocError>
        ensures rows { IfOk result
            (λ rows. rows.items
            ≡ map (λ entry. record entry.1 { transfer = entry.0 }) self.now.rows.entries) }
        ensures in_order { tree.IsOrdered nat_cmp self.now.rows }
    {
        self.rows
            .iter()
            .map(|(id, row)| StatusRow {
                transfer: *id,
                ..*row
            })
            .collect(alloc)
    }

    // A transfer that is open.
    pub(crate) fn add(&mut self, row: StatusRow) -> Result<(), AllocError>
        ensures { OnOk result
            ((rows : List StatusRow) →
            HoldsStatuses rows self.old → status_with row.transfer rows ≡ None →
            is_open row.state ≡ true → HoldsStatuses (rows ++ row ∷ []) self.new) }
    {
        wait(&mut self.due, &row)?;
        self.rows.insert(row.transfer, row)?;
        Ok(())
    }

    // A transfer that is not open any more. Nothing changes where there is none.
    pub(crate) fn end(&mut self, transfer: u128, state: PendingState) -> Result<(), AllocError>
        ensures { OnOk result
            ((rows : List StatusRow) →
            HoldsStatuses rows self.old → is_open state ≡ false →
            HoldsStatuses (set_state transfer state rows) self.new) }
    {
        let Some(row) = self.rows.get(&transfer).copied() else {
            return Ok(());
        };
        forget(&mut self.due, transfer, row.due);
        self.rows.insert(transfer, StatusRow { state, ..row })?;
        Ok(())
    }

    // How an entry ends the pending transfer that it names, if it does.
    pub(crate) fn end_by(&mut self, ends: Option<Ending>) -> Result<(), AllocError>
        ensures { OnOk result
            ((rows : List StatusRow) →
            HoldsStatuses rows self.old → HoldsStatuses (ended ends rows) self.new) }
    {
        match ends {
            Some(Ending::Posted(transfer)) => self.end(transfer, PendingState::Posted),
            Some(Ending::Voided(transfer)) => self.end(transfer, PendingState::Voided),
            None => Ok(()),
        }
    }

    // A new transfer is open, if it is a pending one.
    pub(crate) fn add_new(&mut self, stored: &Transfer) -> Result<(), AllocError>
        requires { stored.now.timestamp ≤ 2 ^ 62 }
        ensures { OnOk result
            ((rows : List StatusRow) →
            HoldsStatuses rows self.old → status_with stored.now.id rows ≡ None →
            HoldsStatuses (rows ++ new_statuses stored.now) self.new) }
    {
        if !stored.flags.is_pending() {
            return Ok(());
        }
        self.add(StatusRow {
            transfer: stored.id,
            state: PendingState::Open,
            due: due(stored),
        })
    }

    // The open transfer that is due first, if it is due at the clock. It is expired then.
    pub(crate) fn expire_next(&mut self, clock: u64) -> Result<Option<u128>, AllocError>
        requires { (rows : List StatusRow) × HoldsStatuses rows self.old }
        ensures expired { IfOk result
            (λ next. IfSome next
            (λ transfer. (rows : List StatusRow) → HoldsStatuses rows self.old →
            (row : StatusRow) × (status_with transfer rows ≡ Some row)
            × (is_due_row clock row ≡ true)
            × HoldsStatuses (set_state transfer state.Expired rows) self.new)) }
        ensures fewer { IfOk result
            (λ next. IfSome next
            (λ _. sorted.btree_set_len self.new.due + 1 ≡ sorted.btree_set_len self.old.due)) }
        ensures none { IfOk result
            (λ next. IfNone next
            ((rows : List StatusRow) → HoldsStatuses rows self.old →
            HoldsStatuses rows self.new
            × ((id : ℕ) (row : StatusRow) →
            status_with id rows ≡ Some row → is_due_row clock row ≡ false))) }
    {
        let Some((time, transfer)) = first(&self.due) else {
            return Ok(None);
        };
        if clock < time {
            return Ok(None);
        }
        forget(&mut self.due, transfer, Some(time));
        let row = self.rows.get(&transfer).copied().unwrap();
        let state = PendingState::Expired;
        self.rows.insert(transfer, StatusRow { state, ..row })?;
        Ok(Some(transfer))
    }
}

fn first(due: &BTreeSet<(u64, u128)>) -> Option<(u64, u128)>
    ensures member { IfSome result (λ key. IsTrue (sorted.contains key_cmp due.now key)) }
    ensures least { IfSome result (sorted.IsLowerBound key_cmp due.now) }
    ensures none { IfNone result
        ((key : ℕ × ℕ) → sorted.contains key_cmp due.now key ≡ false) }
{
    due.first().copied()
}

// The due time of a transfer, if it has one, is waited for.
fn wait(due: &mut BTreeSet<(u64, u128)>, row: &StatusRow) -> Result<(), AllocError>
    ensures { OnOk result
        ((key : ℕ × ℕ) →
        sorted.contains key_cmp due.new key
        ≡ (is_time row.now.due key.0 && (row.now.transfer == key.1)
        || sorted.contains key_cmp due.old key)) }
{
    let Some(time) = row.due else {
        return Ok(());
    };
    due.insert((time, row.transfer))?;
    Ok(())
}

// And is not any more.
fn forget(due: &mut BTreeSet<(u64, u128)>, transfer: u128, at: Option<u64>)
    ensures left { (key : ℕ × ℕ) →
        sorted.contains key_cmp due.new key
        ≡ (not (is_time at key.0 && (transfer == key.1)) && sorted.contains key_cmp due.old key) }
    ensures fewer { (time : ℕ) →
        at ≡ Some time → sorted.contains key_cmp due.old (time, transfer) ≡ true →
        sorted.btree_set_len due.new + 1 ≡ sorted.btree_set_len due.old }
{
    if let Some(time) = at {
        due.remove(&(time, transfer));
    }
}
