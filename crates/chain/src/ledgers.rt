ghost use Rattle.std.specs.Prelude.{◌≡◌, true, Err};
ghost use Rattle.records.specs.declared.unavailable.Unavailable.TheVariants.{Disk};
ghost use Rattle.records.specs.Reads.{Found, found_accounts, found_transfers};
ghost use Rattle.records.specs.Queries.{found_holds, open_holds, queried_accounts};
ghost use Rattle.records.specs.Queries.{queried_transfers};
ghost use Rattle.records.specs.Reads.{history_answer, history_balances_answer, statement_answer};
ghost use Rattle.chain.specs.Ledgers.{LedgersMeaning, AreValid, KeepsAll, Finds, RunsBatch, Knows};
ghost use Rattle.chain.specs.LedgerReads.{seen_in, IsListOf, IsPageOf, HandsOut};
ghost use Rattle.chain.specs.LedgerReads.{ReadsOnly, ReadsTenant, IsTold};
ghost use Rattle.chain.specs.declared.ledgers.BatchFault.TheVariants as batch_fault;
ghost use Rattle.chain.specs.declared.reads.ReadFault.TheVariants as read_fault;

use crate::histories::{BalancesOf, TransfersOf};
use crate::lookups::{AccountsById, HoldsById, Lookup, TransfersById};
use crate::pages::PageOf;
use crate::pieces::{Piece, first_piece, hand_piece};
use crate::query::{AccountQuery, OpenHolds, TransferQuery};
use crate::reading::{account_answer, read_answer};
use crate::{Listed, QueryPage, ReadFault, Work};
use records::{
    AccountFilter, AccountWithBalances, BalanceAt, Hold, Order, PageFilter, QueryFilter, RowSink,
    Transfer, Unavailable,
};
use std::alloc::Global;

/// Why a batch was not run. Nothing has changed; only where a disk failed may the next opening find
/// the whole batch.
#[derive(Clone, Copy, Debug, PartialEq, Eq)]
pub enum BatchFault {
    /// No tenant has this digest.
    UnknownKey,
    Unavailable(Unavailable),
}

impl From<Unavailable> for BatchFault {
    ghost from_gives = { λ why fault. fault ≡ batch_fault.Unavailable why };

    fn from(why: Unavailable) -> BatchFault {
        BatchFault::Unavailable(why)
    }
}

/// The ledgers of many tenants, each known by the 32 bytes of its digest.
///
/// Ledgers that lose what they stand on, as a store whose disk fails, are no longer live: what they
/// answer from then on says nothing of any tenant.
pub trait Ledgers {
    // The machine of each tenant; whether the ledgers are live; whether they have failed; what every
    // run of calls keeps; and which machines an opening may find.
    ghost means: { LedgersMeaning Self };

    /// Whether what the ledgers stand on has failed, so that each call is answered that the disk
    /// failed.
    fn has_failed(&self) -> bool
        ensures { result ≡ means.has_failed self.now };

    /// Runs a batch of work on one tenant's tables, and keeps all of it or nothing.
    fn in_batch<W: Work + Drop>(
        &mut self,
        digest: &[u8; 32],
        work: W,
    ) -> Result<W::Output, BatchFault>
        ensures { RunsBatch means (W.gives work) digest.now self.old self.new result };

    /// Whether a tenant has this digest. Nothing changes.
    fn knows(&mut self, digest: &[u8; 32]) -> Result<bool, Unavailable>
        ensures { Knows means digest.now self.old self.new result };

    /// The accounts with these ids, in the order asked, with their balances at the clock. An id
    /// asked twice is answered twice.
    fn lookup_accounts(
        &mut self,
        alloc: Global,
        digest: &[u8; 32],
        ids: &[u128],
    ) -> Result<Listed<AccountWithBalances>, ReadFault>
        ensures { ReadsTenant means digest.now (IsListOf (λ m. Found (found_accounts m ids.now)))
            self.old self.new result }
    {
        let by = AccountsById;
        read_answer(self.in_batch(digest, Lookup { alloc, by, ids }))
    }

    /// The transfers with these ids, in the order asked. An id asked twice is answered twice.
    fn lookup_transfers(
        &mut self,
        alloc: Global,
        digest: &[u8; 32],
        ids: &[u128],
    ) -> Result<Listed<Transfer>, ReadFault>
        ensures { ReadsTenant means digest.now (IsListOf (λ m. Found (found_transfers m ids.now)))
            self.old self.new result }
    {
        let by = TransfersById;
        read_answer(self.in_batch(digest, Lookup { alloc, by, ids }))
    }

    /// What has become of the holds with these ids, in the order asked; an id that is none is left
    /// out. An id asked twice is answered twice.
    fn lookup_pending(
        &mut self,
        alloc: Global,
        digest: &[u8; 32],
        ids: &[u128],
    ) -> Result<Listed<Hold>, ReadFault>
        ensures { ReadsTenant means digest.now (IsListOf (λ m. Found (found_holds m ids.now)))
            self.old self.new result }
    {
        let by = HoldsById;
        read_answer(self.in_batch(digest, Lookup { alloc, by, ids }))
    }

    /// A page of the holds that are open at the clock.
    fn open_pending(
        &mut self,
        alloc: Global,
        digest: &[u8; 32],
        asked: &PageFilter,
    ) -> Result<QueryPage<Hold>, ReadFault>
        ensures { ReadsTenant means digest.now (IsPageOf (λ m. Found (open_holds m asked.now)))
            self.old self.new result }
    {
        let query = OpenHolds { asked: *asked };
        read_answer(self.in_batch(digest, PageOf { alloc, query }))
    }

    /// A page of the accounts that a query asks for, with their balances at the clock.
    fn query_accounts(
        &mut self,
        alloc: Global,
        digest: &[u8; 32],
        asked: &QueryFilter,
    ) -> Result<QueryPage<AccountWithBalances>, ReadFault>
        ensures { ReadsTenant means digest.now
            (IsPageOf (λ m. Found (queried_accounts m asked.now))) self.old self.new result }
    {
        let query = AccountQuery { asked: *asked };
        read_answer(self.in_batch(digest, PageOf { alloc, query }))
    }

    /// A page of the transfers that a query asks for.
    fn query_transfers(
        &mut self,
        alloc: Global,
        digest: &[u8; 32],
        asked: &QueryFilter,
    ) -> Result<QueryPage<Transfer>, ReadFault>
        ensures { ReadsTenant means digest.now
            (IsPageOf (λ m. Found (queried_transfers m asked.now))) self.old self.new result }
    {
        let query = TransferQuery { asked: *asked };
        read_answer(self.in_batch(digest, PageOf { alloc, query }))
    }

    /// The transfers that a filter asks for.
    fn history_transfers(
        &mut self,
        alloc: Global,
        digest: &[u8; 32],
        asked: &AccountFilter,
    ) -> Result<Listed<Transfer>, ReadFault>
        ensures { ReadsTenant means digest.now (IsListOf (λ m. history_answer m asked.now))
            self.old self.new result }
    {
        let asked = *asked;
        account_answer(self.in_batch(digest, TransfersOf { alloc, asked }))
    }

    /// The balances of the account after each transfer that a filter asks for.
    fn history_balances(
        &mut self,
        alloc: Global,
        digest: &[u8; 32],
        asked: &AccountFilter,
    ) -> Result<Listed<BalanceAt>, ReadFault>
        ensures { ReadsTenant means digest.now (IsListOf (λ m. history_balances_answer m asked.now))
            self.old self.new result }
    {
        let asked = *asked;
        account_answer(self.in_batch(digest, BalancesOf { alloc, asked }))
    }

    /// Hands the account's statement to a sink, row by row, in this order, in pieces that are each
    /// a batch. After `Unavailable` the sink has got a beginning of it; after `Sink` too, and it
    /// refused the next row with that fault.
    fn each_statement_row<S: RowSink>(
        &mut self,
        alloc: Global,
        digest: &[u8; 32],
        account: u128,
        order: Order,
        sink: &mut S,
    ) -> Result<(), ReadFault>
        ensures told { means.is_live self.new → HandsOut S.takes S.refuses
            (seen_in (λ m. statement_answer m account order) (means.tenants self.old digest.now))
            sink.old sink.new result }
        ensures failed { means.has_failed self.old ≡ true
            → result ≡ Err (read_fault.Unavailable Disk) }
        ensures finds { Finds means (IsTold result) KeepsAll self.old self.new }
        ensures reads { ReadsOnly means self.old self.new }
    {
        let mut span = first_piece(order);
        'pieces: for _ in 0..u64::MAX {
            let piece = Piece {
                alloc,
                account,
                span,
            };
            let found = account_answer(self.in_batch(digest, piece))?;
            let Some(next) = hand_piece(account, &span, &found.entries, sink)? else {
                return Ok(());
            };
            span = next;
        }
        Err(ReadFault::Unavailable(Unavailable::Size))
    }

    /// No call at all is a run of calls.
    ghost stays: { (a : Self) → means.follows a a };

    /// A run of calls behind another is a run of calls.
    ghost then: { (a b c : Self) → means.follows a b → means.follows b c → means.follows a c };

    /// Ledgers that are no longer live stay so.
    ghost lived: { (a b : Self) → means.follows a b → means.is_live b → means.is_live a };

    /// Ledgers that have failed stay so.
    ghost fails: { (a b : Self) → means.follows a b → means.has_failed a ≡ true
        → means.has_failed b ≡ true };

    /// In live ledgers every tenant's machine is valid.
    ghost valid: { (a : Self) → means.is_live a → AreValid (means.tenants a) };
}
