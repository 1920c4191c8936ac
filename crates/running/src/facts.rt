ghost use Rattle.std.specs.Prelude.{◌≡◌};
ghost use Rattle.std.specs.Option.{option_map, option_and_then};
ghost use Rattle.records.specs.Machine.{Machine, transfer_with};
ghost use Rattle.records.specs.Facts.{facts_of, account_in, state_in, pending_transfer_in, with_pending_amount, pending_amount_in};
ghost use Rattle.running.specs.Running.{IsRunning};

use crate::Running;
use amount::Amount;
use records::{
    AccountWithBalances, ExistingTransfer, PendingState, PendingTransfer, Side, Transfer,
    TransferEvent, TransferFacts,
};
use rows::{StatusRow, single_rows};

impl Running {
    /// The account with this id, with its balances at the clock.
    pub fn account(&self, id: u128) -> Option<AccountWithBalances>
        ensures { (m : Machine) → IsRunning m self.now → result ≡ account_in m id }
    {
        single_rows();
        self.accounts.get(&id).copied()
    }

    /// The transfer with this id.
    pub fn transfer(&self, id: u128) -> Option<Transfer>
        ensures { (m : Machine) → IsRunning m self.now → result ≡ transfer_with id m.transfers }
    {
        self.transfers.get(id)
    }

    /// What has become of the pending transfer with this id at the clock.
    pub fn pending_state(&self, id: u128) -> Option<PendingState>
        ensures { (m : Machine) →
            IsRunning m self.now →
            result ≡ option_and_then (state_in m) (transfer_with id m.transfers) }
    {
        single_rows();
        state_of(self.statuses.get(id))
    }

    /// All that the decision on a transfer event depends on. No id has failed.
    pub fn facts(&self, ev: &TransferEvent) -> TransferFacts
        ensures { (m : Machine) → IsRunning m self.now → result ≡ facts_of m ev.now }
    {
        let existing = self.existing(ev.id);
        let pending = self.pending_transfer(ev);
        let debit = self.account_of(ev.account_id(Side::Debit, &pending));
        let credit = self.account_of(ev.account_id(Side::Credit, &pending));
        TransferFacts {
            existing,
            failed: false,
            pending,
            debit,
            credit,
        }
    }

    fn existing(&self, id: u128) -> Option<ExistingTransfer>
        ensures { (m : Machine) →
            IsRunning m self.now →
            result ≡ option_map (with_pending_amount m) (transfer_with id m.transfers) }
    {
        let transfer = self.transfer(id)?;
        let pending_amount = self.pending_amount(&transfer);
        Some(ExistingTransfer {
            transfer,
            pending_amount,
        })
    }

    // Of a post or void the amount of the pending transfer that it ended, else its own.
    fn pending_amount(&self, entry: &Transfer) -> Amount
        ensures { (m : Machine) → IsRunning m self.now → result ≡ pending_amount_in m entry.now }
    {
        if !entry.flags.is_post_or_void() {
            return entry.amount;
        }
        match self.transfer(entry.pending_id) {
            Some(pending) => pending.amount,
            None => entry.amount,
        }
    }

    fn pending_transfer(&self, ev: &TransferEvent) -> Option<PendingTransfer>
        ensures { (m : Machine) → IsRunning m self.now → result ≡ pending_transfer_in m ev.now }
    {
        if !ev.flags.is_post_or_void() {
            return None;
        }
        let transfer = self.transfer(ev.pending_id)?;
        let state = self.pending_state(ev.pending_id);
        Some(PendingTransfer { transfer, state })
    }

    fn account_of(&self, id: Option<u128>) -> Option<AccountWithBalances>
        ensures { (m : Machine) →
            IsRunning m self.now → result ≡ option_and_then (account_in m) id }
    {
        match id {
            Some(id) => self.account(id),
            None => None,
        }
    }
}

fn state_of(row: Option<StatusRow>) -> Option<PendingState>
    ensures { result ≡ option_map (λ row. row.state) row }
{
    row.map(|row| row.state)
}
