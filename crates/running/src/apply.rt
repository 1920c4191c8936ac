ghost use Rattle.std.specs.Prelude.{◌≡◌, ◌+◌, ◌<◌, ◌≤◌, None, IsTrue, ◌↔◌, IfOk, IfSome, IfNone};
ghost use Rattle.std.specs.Bool.{Decides};
ghost use Rattle.std.specs.Option.{option_map};
ghost use Rattle.records.specs.Machine.{Machine};
ghost use Rattle.records.specs.Accepted.{IsAccepted};
ghost use Rattle.records.specs.Step.{account_verdict_in, at_clock, max_clock};
ghost use Rattle.records.specs.Valid.{IsNextTimestamp, IsNextTransfer, event_of_account};
ghost use Rattle.running.specs.declared.entry.Entry.TheVariants.{Opened, Moved};
ghost use Rattle.running.specs.Applied.{Takes, TellsHistory, Refuses};
ghost use Rattle.running.specs.Entries.{CanCome};
ghost use Rattle.running.specs.Running.{IsRunning};

use crate::events::{event_of_account, event_of_transfer};
use crate::history::tell;
use crate::{Entry, HistoryTaker, Running};
use engine::{AccountDecision, Decision, decide_account, decide_transfer};
use records::{Accepted, Account, AccountWithBalances, MAX_CLOCK, MOST_AT_ONCE, Transfer};
use rows::transfer_rows;
use std::alloc::AllocError;

impl Running {
    /// One entry more, at its own clock: whether it is accepted behind those before it. Its history
    /// is told to the taker. After a refusal the ledger is of no more use.
    pub fn apply<H: HistoryTaker>(
        &mut self,
        entry: &Entry,
        history: &mut H,
    ) -> Result<bool, AllocError>
        requires { (m : Machine) × IsRunning m self.old }
        ensures accepted { IfOk result (Takes self.old self.new entry.now) }
        ensures told { IfOk result
            (TellsHistory H.told history.old history.new self.old entry.now) }
        ensures refused { IfOk result (Refuses self.old entry.now) }
    {
        match entry {
            Entry::Opened(account) => self.open_next(account),
            Entry::Moved(transfer) => self.move_next(transfer, history),
        }
    }

    fn open_next(&mut self, account: &Account) -> Result<bool, AllocError>
        requires { (m : Machine) × IsRunning m self.old }
        ensures accepted { IfOk result (Takes self.old self.new (Opened account.now)) }
        ensures refused { IfOk result (Refuses self.old (Opened account.now)) }
    {
        account.widths();
        let clock = self.clock.max(account.timestamp);
        if !self.can_come(clock) || !self.is_next(account.timestamp, clock) {
            return Ok(false);
        }
        if !self.opens(account) {
            return Ok(false);
        }
        self.settle_to(clock)?;
        self.open_account(account)?;
        Ok(true)
    }

    fn move_next<H: HistoryTaker>(
        &mut self,
        transfer: &Transfer,
        history: &mut H,
    ) -> Result<bool, AllocError>
        requires { (m : Machine) × IsRunning m self.old }
        ensures accepted { IfOk result (Takes self.old self.new (Moved transfer.now)) }
        ensures told { IfOk result
            (TellsHistory H.told history.old history.new self.old (Moved transfer.now)) }
        ensures refused { IfOk result (Refuses self.old (Moved transfer.now)) }
    {
        transfer_rows();
        if !self.can_come(transfer.at) || !self.is_next(transfer.timestamp, transfer.at) {
            return Ok(false);
        }
        self.settle_to(transfer.at)?;
        let Some(accepted) = self.accepted(transfer) else {
            return Ok(false);
        };
        self.keep_transfer(&accepted)?;
        tell(history, &accepted)?;
        Ok(true)
    }

    // Whether the clock can go on to this one.
    fn can_come(&self, clock: u64) -> bool
        ensures { (m : Machine) → IsRunning m self.now → IsTrue result ↔ CanCome m clock }
    {
        self.clock <= clock && clock <= MAX_CLOCK
    }

    // Whether the next entry of a batch with this clock may have the timestamp.
    fn is_next(&self, timestamp: u64, clock: u64) -> bool
        ensures { (m : Machine) →
            IsRunning m self.now →
            IsTrue result ↔ IsNextTimestamp (at_clock m clock) timestamp }
    {
        if timestamp <= self.last {
            return false;
        }
        if clock < timestamp {
            return false;
        }
        // A clock is less than a batch ahead of each timestamp that it gives.
        clock - timestamp < u64::from(MOST_AT_ONCE)
    }

    // Whether the account's own fields open it, at any clock.
    fn opens(&self, account: &Account) -> bool
        ensures { (m : Machine) →
            IsRunning m self.now →
            IsTrue result ↔ (account_verdict_in m (event_of_account account.now) ≡ None) }
    {
        let old = without_balances(self.account(account.id));
        let ev = event_of_account(account);
        match decide_account(&old, &ev, account.timestamp) {
            AccountDecision::Accept(_) => true,
            AccountDecision::Refuse(_) => false,
        }
    }

    // What is told of a transfer that its own fields give, at the clock of its batch.
    fn accepted(&self, transfer: &Transfer) -> Option<Accepted>
        requires by_clock { transfer.now.timestamp ≤ transfer.now.at }
        requires in_batch { transfer.now.at < transfer.now.timestamp + 1000 }
        requires bounded { transfer.now.at ≤ max_clock }
        ensures some { IfSome result
            (λ a. (m : Machine) → IsRunning m self.now → m.clock ≡ transfer.now.at →
            IsNextTimestamp m transfer.now.timestamp →
            IsAccepted m a × (a.stored ≡ transfer.now)) }
        ensures none { IfNone result
            ((m : Machine) → IsRunning m self.now → IsNextTransfer m transfer.now → ⊥) }
    {
        let ev = event_of_transfer(transfer);
        match decide_transfer(&self.facts(&ev), &ev, transfer.timestamp, transfer.at) {
            Decision::Accept(accepted) => {
                if !is_same(&accepted.stored, transfer) {
                    return None;
                }
                Some(accepted)
            }
            Decision::Refuse(_) => None,
        }
    }
}

fn without_balances(found: Option<AccountWithBalances>) -> Option<Account>
    ensures { result ≡ option_map (λ found. found.account) found }
{
    found.map(|found| found.account)
}

fn is_same(a: &Transfer, b: &Transfer) -> bool
    ensures { Decides result (a.now ≡ b.now) }
{
    a == b
}
