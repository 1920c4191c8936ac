//! The work of tests on a tenant's tables.

use chain::{BatchReply, Tables, Work, run_accounts, run_transfers};
use records::{
    AccountEvent, AccountResult, Balances, PendingState, TransferEvent, TransferResult, Unavailable,
};
use std::alloc::Global;

/// A batch of accounts at a moment, in nanoseconds; events beyond the thousandth are left out.
#[derive(Drop)]
pub struct Opening<'a> {
    pub alloc: Global,
    pub accounts: &'a [AccountEvent],
    pub moment: u64,
}

impl Work for Opening<'_> {
    type Output = BatchReply<AccountResult>;

    ghost gives = { λ _ _ _ _. Unit {0} };

    fn run<T: Tables>(self, tables: &mut T) -> Result<BatchReply<AccountResult>, Unavailable> {
        let accounts = &self.accounts[..self.accounts.len().min(1000)];
        run_accounts(self.alloc, tables, accounts, self.moment)
    }
}

/// A batch of transfers at a moment, in nanoseconds; events beyond the thousandth are left out.
#[derive(Clone, Copy)]
pub struct Sending<'a> {
    pub alloc: Global,
    pub transfers: &'a [TransferEvent],
    pub moment: u64,
}

impl Work for Sending<'_> {
    type Output = BatchReply<TransferResult>;

    ghost gives = { λ _ _ _ _. Unit {0} };

    fn run<T: Tables>(self, tables: &mut T) -> Result<BatchReply<TransferResult>, Unavailable> {
        let transfers = &self.transfers[..self.transfers.len().min(1000)];
        run_transfers(self.alloc, tables, transfers, self.moment)
    }
}

/// Runs a batch of transfers, and wants memory at its end.
#[derive(Clone, Copy)]
pub struct Failing<'a> {
    pub sending: Sending<'a>,
}

impl Work for Failing<'_> {
    type Output = ();

    ghost gives = { λ _ _ _ _. Unit {0} };

    fn run<T: Tables>(self, tables: &mut T) -> Result<(), Unavailable> {
        self.sending.run(tables)?;
        Err(Unavailable::Memory)
    }
}

/// Looks at an account, transfer 100 and the clock.
#[derive(Clone, Copy)]
pub struct Looking {
    pub account: u128,
}

/// What is seen of an account and of transfer 100, and the clock.
pub type Seen = (Option<[u128; 4]>, Option<PendingState>, u64);

impl Work for Looking {
    type Output = Seen;

    ghost gives = { λ _ _ _ _. Unit {0} };

    fn run<T: Tables>(self, tables: &mut T) -> Result<Seen, Unavailable> {
        let account = tables.account(self.account)?;
        let state = tables.pending_state(100)?;
        let clock = tables.clock()?;
        Ok((account.map(|found| sums(&found.balances)), state, clock))
    }
}

/// Debits and credits, the pending sum first.
pub fn sums(balances: &Balances) -> [u128; 4] {
    [
        balances.debits.pending.value(),
        balances.debits.posted.value(),
        balances.credits.pending.value(),
        balances.credits.posted.value(),
    ]
}
