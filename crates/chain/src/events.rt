ghost use Rattle.std.specs.Prelude.{◌≡◌, ◌≤◌, length, IfOk};
ghost use Rattle.records.specs.Chains.{Rules};
ghost use Rattle.records.specs.Step.{account_rules, transfer_rules, step_outcome, step_machine};
ghost use Rattle.records.specs.Step.{IsReply};
ghost use Rattle.chain.specs.Tables.{IsFresh, Tells, Leaves, LeavesRun, on_now};
ghost use Rattle.chain.specs.InBatch.{IsInBatch, IsInTime, after_event};
ghost use Rattle.chain.specs.EventLaws.{EventLaws, account_laws, transfer_laws};

use crate::Tables;
use crate::batch::run_batch;
use crate::facts::transfer_facts;
use engine::{AccountDecision, Decision, decide_account, decide_transfer};
use records::{
    AccountEvent, AccountResult, BatchReply, TransferEvent, TransferResult, Unavailable,
};
use std::alloc::Global;

/// A kind of event that a batch is made of.
pub trait BatchEvent {
    type Result: Copy;

    ghost rules: { Rules Self Self.Result };

    /// The result of an accepted event.
    fn accepted() -> Self::Result
        ensures { result ≡ rules.accepted };

    /// The result of the last event of an open chain.
    fn chain_open() -> Self::Result
        ensures { result ≡ rules.chain_open };

    /// The result of an event that falls with its chain.
    fn chain_failed() -> Self::Result
        ensures { result ≡ rules.chain_failed };

    /// Whether the event stands or falls with the next one of its batch.
    fn is_linked(&self) -> bool
        ensures { result ≡ rules.linked self.now };

    /// The id that stays failed where the event fails so.
    fn failed_id(&self, told: Self::Result) -> Option<u128>
        ensures { result ≡ rules.failed_id self.now told };

    /// Runs the event: why it fails, or `None` and its record is kept. Times are in nanoseconds.
    fn run_one<T: Tables>(
        &self,
        tables: &mut T,
        timestamp: u64,
        clock: u64,
    ) -> Result<Option<Self::Result>, Unavailable>
        requires usable { T.means.is_usable tables.old }
        requires in_batch { T.means.is_live tables.old →
            IsInBatch (T.means.state tables.old).now clock timestamp }
        requires in_time { IsInTime clock timestamp 1 }
        ensures verdict { Tells T.means tables.old tables.new result
            (λ m. rules.verdict m self.now) }
        ensures leaves { Leaves T.means tables.old tables.new result
            (on_now (λ m. after_event rules m self.now timestamp)) };

    /// An event keeps the machine in its batch, and fails for good with an unused id alone.
    ghost laws: { EventLaws rules };
}

impl BatchEvent for AccountEvent {
    type Result = AccountResult;

    ghost rules = { account_rules };

    fn accepted() -> AccountResult {
        AccountResult::Accepted
    }

    fn chain_open() -> AccountResult {
        AccountResult::LinkedEventChainOpen
    }

    fn chain_failed() -> AccountResult {
        AccountResult::LinkedEventFailed
    }

    fn is_linked(&self) -> bool {
        self.flags.is_linked()
    }

    fn failed_id(&self, _told: AccountResult) -> Option<u128> {
        None
    }

    #[tactic(auto, unfolding(records::specs::Step::account_verdict_in, records::specs::Step::after_account))]
    fn run_one<T: Tables>(
        &self,
        tables: &mut T,
        timestamp: u64,
        _clock: u64,
    ) -> Result<Option<AccountResult>, Unavailable> {
        let old = tables.account(self.id)?.map(|found| found.account);
        match decide_account(&old, self, timestamp) {
            AccountDecision::Refuse(result) => Ok(Some(result)),
            AccountDecision::Accept(account) => {
                tables.accept_account(&account)?;
                Ok(None)
            }
        }
    }

    ghost laws = { account_laws };
}

impl BatchEvent for TransferEvent {
    type Result = TransferResult;

    ghost rules = { transfer_rules };

    fn accepted() -> TransferResult {
        TransferResult::Accepted
    }

    fn chain_open() -> TransferResult {
        TransferResult::LinkedEventChainOpen
    }

    fn chain_failed() -> TransferResult {
        TransferResult::LinkedEventFailed
    }

    fn is_linked(&self) -> bool {
        self.flags.is_linked()
    }

    fn failed_id(&self, told: TransferResult) -> Option<u128> {
        if told.fails_for_good() {
            Some(self.id)
        } else {
            None
        }
    }

    #[tactic(auto, unfolding(records::specs::Step::transfer_verdict_in, records::specs::Step::after_transfer))]
    fn run_one<T: Tables>(
        &self,
        tables: &mut T,
        timestamp: u64,
        clock: u64,
    ) -> Result<Option<TransferResult>, Unavailable> {
        let facts = transfer_facts(tables, self)?;
        match decide_transfer(&facts, self, timestamp, clock) {
            Decision::Refuse(result) => Ok(Some(result)),
            Decision::Accept(accepted) => {
                tables.accept_transfer(&accepted)?;
                Ok(None)
            }
        }
    }

    ghost laws = { transfer_laws };
}

/// Runs a batch of account events, as `run_batch` does.
pub fn run_accounts<T: Tables>(
    alloc: Global,
    tables: &mut T,
    accounts: &[AccountEvent],
    moment: u64,
) -> Result<BatchReply<AccountResult>, Unavailable>
    requires usable { T.means.is_usable tables.old }
    requires fresh { T.means.is_live tables.old → IsFresh (T.means.state tables.old) }
    requires short { length accounts.now ≤ 1000 }
    ensures reply { T.means.is_live tables.new →
        IfOk result
        (λ reply. IsReply reply
        (step_outcome account_rules (T.means.state tables.old).now accounts.now moment)) }
    ensures leaves { LeavesRun T.means tables.old tables.new result
        (on_now (λ m. step_machine account_rules m accounts.now moment)) }
{
    run_batch(alloc, tables, accounts, moment)
}

/// Runs a batch of transfer events, as `run_batch` does.
pub fn run_transfers<T: Tables>(
    alloc: Global,
    tables: &mut T,
    transfers: &[TransferEvent],
    moment: u64,
) -> Result<BatchReply<TransferResult>, Unavailable>
    requires usable { T.means.is_usable tables.old }
    requires fresh { T.means.is_live tables.old → IsFresh (T.means.state tables.old) }
    requires short { length transfers.now ≤ 1000 }
    ensures reply { T.means.is_live tables.new →
        IfOk result
        (λ reply. IsReply reply
        (step_outcome transfer_rules (T.means.state tables.old).now transfers.now moment)) }
    ensures leaves { LeavesRun T.means tables.old tables.new result
        (on_now (λ m. step_machine transfer_rules m transfers.now moment)) }
{
    run_batch(alloc, tables, transfers, moment)
}
