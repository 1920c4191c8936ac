ghost use Rattle.std.specs.Prelude.{◌≡◌, OnOk};
ghost use Rattle.records.specs.Machine.{Machine, new_machine};
ghost use Rattle.records.specs.Accepted.{IsAccepted};
ghost use Rattle.records.specs.Valid.{IsNextAccount, with_account, with_transfer};
ghost use Rattle.running.specs.Running.{IsRunning};

use crate::accounts::{open, set_both};
use crate::statuses::Statuses;
use crate::transfers::Transfers;
use records::{Accepted, Account, AccountWithBalances};
use rows::{account_rows, transfer_rows};
use std::alloc::{AllocError, Global};
use std::collections::BTreeMap;

/// One tenant's ledger at its clock, with what is found by a search: accounts with their balances,
/// transfers, and the states of pending transfers. No id has failed in it, and its history is told
/// to others as it comes (`HistoryTaker`). After an error it is of no more use.
#[derive(Debug, Drop)]
pub struct Running {
    // The clock, in nanoseconds.
    pub(crate) clock: u64,
    // The greatest timestamp of an entry, or 0 without one.
    pub(crate) last: u64,
    pub(crate) accounts: BTreeMap<u128, AccountWithBalances>,
    pub(crate) transfers: Transfers,
    pub(crate) statuses: Statuses,
}

impl Running {
    /// A new tenant.
    pub fn new(alloc: Global) -> Running
        ensures { IsRunning new_machine result }
    {
        Running {
            clock: 0,
            last: 0,
            accounts: BTreeMap::new(alloc),
            transfers: Transfers::new(alloc),
            statuses: Statuses::new(alloc),
        }
    }

    /// The clock, in nanoseconds.
    pub fn clock(&self) -> u64
        ensures { (m : Machine) → IsRunning m self.now → result ≡ m.clock }
    {
        self.clock
    }

    /// The next entry is an account.
    pub fn open_account(&mut self, account: &Account) -> Result<(), AllocError>
        ensures { OnOk result
            ((m : Machine) →
            IsRunning m self.old → IsNextAccount m account.now →
            IsRunning (with_account m account.now) self.new) }
    {
        account_rows();
        open(&mut self.accounts, account)?;
        self.last = account.timestamp;
        Ok(())
    }

    /// The next entry is a transfer, with what is told of it.
    pub fn keep_transfer(&mut self, accepted: &Accepted) -> Result<(), AllocError>
        requires { (m : Machine) × IsRunning m self.old × IsAccepted m accepted.now }
        ensures { OnOk result
            ((m : Machine) →
            IsRunning m self.old → IsAccepted m accepted.now →
            IsRunning (with_transfer m accepted.now.stored) self.new) }
    {
        transfer_rows();
        let stored = accepted.stored;
        self.statuses.end_by(accepted.ends)?;
        self.statuses.add_new(&stored)?;
        self.transfers.keep(&stored)?;
        let debit = accepted.debit_after;
        let credit = accepted.credit_after;
        set_both(&mut self.accounts, &stored, debit, credit)?;
        self.last = stored.timestamp;
        Ok(())
    }
}
