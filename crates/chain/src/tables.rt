ghost use Rattle.std.specs.Prelude.{◌≡◌, ◌≤◌, None, IsSome};
ghost use Rattle.records.specs.Machine.{transfer_with, has_id, with_failed};
ghost use Rattle.records.specs.Facts.{account_in};
ghost use Rattle.records.specs.Queries.{accounts_within, transfers_within};
ghost use Rattle.records.specs.Step.{at_clock, max_clock};
ghost use Rattle.records.specs.Valid.{IsValid, IsNextAccount, with_account, with_transfer};
ghost use Rattle.records.specs.Accepted.{IsAccepted};
ghost use Rattle.chain.specs.AccountEntries.{account_entries_within};
ghost use Rattle.chain.specs.Tables.{Meaning, Leaves, LooksUp, pending_state_of, FailsNow, on_now};
ghost use Rattle.chain.specs.Tables.{marking, at_mark, unmarked};

use crate::AccountEntry;
use records::{Accepted, Account, AccountWithBalances, PendingState, Span, Transfer, Unavailable};
use std::alloc::Global;

/// One tenant's accounts, transfers and failed ids inside one open batch.
///
/// After `Unavailable` the batch is over: all is as at its beginning, and no further call is
/// allowed. Tables that lose what they stand on, as a connection whose disk fails, are no longer
/// live: what they answer from then on says nothing of the tenant.
pub trait Tables {
    /// The tenant's machine now, at the beginning of the batch and at the mark; whether calls are
    /// allowed; whether the tables are live; and what every run of calls keeps.
    ghost means: { Meaning Self };

    /// The tenant's clock, in nanoseconds.
    fn clock(&mut self) -> Result<u64, Unavailable>
        requires { means.is_usable self.old }
        ensures { LooksUp means (λ m found. found ≡ m.clock) self.old self.new result };

    /// The account with this id, with its balances at the clock.
    fn account(&mut self, id: u128) -> Result<Option<AccountWithBalances>, Unavailable>
        requires { means.is_usable self.old }
        ensures { LooksUp means (λ m found. found ≡ account_in m id) self.old self.new result };

    /// The transfer with this id.
    fn transfer(&mut self, id: u128) -> Result<Option<Transfer>, Unavailable>
        requires { means.is_usable self.old }
        ensures { LooksUp means (λ m found. found ≡ transfer_with id m.transfers)
            self.old self.new result };

    /// What has become of the transfer with this id at the clock, if it is a pending one.
    fn pending_state(&mut self, id: u128) -> Result<Option<PendingState>, Unavailable>
        requires { means.is_usable self.old }
        ensures { LooksUp means (λ m found. found ≡ pending_state_of m id)
            self.old self.new result };

    /// Whether the id has failed for good.
    fn failed(&mut self, id: u128) -> Result<bool, Unavailable>
        requires { means.is_usable self.old }
        ensures { LooksUp means (λ m found. found ≡ has_id id m.failed) self.old self.new result };

    /// The accounts within a span of time.
    fn accounts_within(&mut self, alloc: Global, span: &Span) -> Result<Vec<Account>, Unavailable>
        requires { means.is_usable self.old }
        ensures { LooksUp means (λ m found. found.items ≡ accounts_within m span.now)
            self.old self.new result };

    /// The transfers within a span of time.
    fn transfers_within(&mut self, alloc: Global, span: &Span) -> Result<Vec<Transfer>, Unavailable>
        requires { means.is_usable self.old }
        ensures { LooksUp means (λ m found. found.items ≡ transfers_within m span.now)
            self.old self.new result };

    /// An account's entries within a span of time, each with the account's balances after it.
    fn account_entries(
        &mut self,
        alloc: Global,
        account: u128,
        span: &Span,
    ) -> Result<Vec<AccountEntry>, Unavailable>
        requires { means.is_usable self.old }
        ensures { LooksUp means (λ m found. found.items ≡ account_entries_within m account span.now)
            self.old self.new result };

    /// Sets the clock, in nanoseconds, and releases what is due at it.
    fn settle(&mut self, clock: u64) -> Result<(), Unavailable>
        requires usable { means.is_usable self.old }
        requires unmarked { means.is_live self.old → (means.state self.old).marked ≡ None }
        requires later { means.is_live self.old → (means.state self.old).now.clock ≤ clock }
        requires bounded { clock ≤ max_clock }
        ensures { Leaves means self.old self.new result (on_now (λ m. at_clock m clock)) };

    /// Keeps an account.
    fn accept_account(&mut self, account: &Account) -> Result<(), Unavailable>
        requires usable { means.is_usable self.old }
        requires next { means.is_live self.old →
            IsNextAccount (means.state self.old).now account.now }
        requires bounded { account.now.timestamp ≤ max_clock }
        ensures { Leaves means self.old self.new result
            (on_now (λ m. with_account m account.now)) };

    /// Keeps a transfer, with the balances of its accounts and the state of the pending transfer
    /// that it ends.
    fn accept_transfer(&mut self, accepted: &Accepted) -> Result<(), Unavailable>
        requires usable { means.is_usable self.old }
        requires next { means.is_live self.old →
            IsAccepted (means.state self.old).now accepted.now }
        requires bounded { accepted.now.stored.timestamp ≤ max_clock }
        requires at_bounded { accepted.now.stored.at ≤ max_clock }
        ensures { Leaves means self.old self.new result
            (on_now (λ m. with_transfer m accepted.now.stored)) };

    /// Keeps the id of a transfer that failed for good.
    fn record_failed(&mut self, id: u128) -> Result<(), Unavailable>
        requires usable { means.is_usable self.old }
        requires unmarked { means.is_live self.old → (means.state self.old).marked ≡ None }
        requires fails { means.is_live self.old → FailsNow (means.state self.old).now id }
        ensures { Leaves means self.old self.new result (on_now (λ m. with_failed m id)) };

    /// Marks where to go back to.
    fn mark(&mut self) -> Result<(), Unavailable>
        requires usable { means.is_usable self.old }
        requires unmarked { means.is_live self.old → (means.state self.old).marked ≡ None }
        ensures { Leaves means self.old self.new result marking };

    /// Goes back to the mark and closes it.
    fn back_to_mark(&mut self) -> Result<(), Unavailable>
        requires usable { means.is_usable self.old }
        requires marked { means.is_live self.old → IsSome (means.state self.old).marked }
        ensures { Leaves means self.old self.new result at_mark };

    /// Closes the mark and keeps what has come since.
    fn release_mark(&mut self) -> Result<(), Unavailable>
        requires usable { means.is_usable self.old }
        requires marked { means.is_live self.old → IsSome (means.state self.old).marked }
        ensures { Leaves means self.old self.new result unmarked };

    /// No call at all is a run of calls.
    ghost stays: { (a : Self) → means.follows a a };

    /// A run of calls behind another is a run of calls.
    ghost then: { (a b c : Self) → means.follows a b → means.follows b c → means.follows a c };

    /// Tables that are no longer live stay so.
    ghost lived: { (a b : Self) → means.follows a b → means.is_live b → means.is_live a };

    /// Live tables that may be called hold a valid machine.
    ghost valid: { (a : Self) → means.is_live a → means.is_usable a → IsValid (means.state a).now };
}
