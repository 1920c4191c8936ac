//! What can be asked for in pages: accounts, transfers and open holds.

ghost use Rattle.std.specs.Prelude.{◌≡◌, ℕ, List, Option, Some};
ghost use Rattle.std.specs.Option.{option_and_then};
ghost use Rattle.records.specs.Machine.{Machine, account_with, transfer_with};
ghost use Rattle.records.specs.Queries.{asked_account, asked_transfer, hold_of, if_open, within};
ghost use Rattle.records.specs.Valid.{IsValid};
ghost use Rattle.records.specs.declared.query.PageFilter.{PageFilter as Asked};
ghost use Rattle.chain.specs.Looks.{Searches};
ghost use Rattle.chain.specs.Pages.{AreRecords};
ghost use Rattle.chain.specs.Records.{account_records, transfer_records};

use crate::Tables;
use crate::lookups::hold_of;
use records::{
    Account, AccountWithBalances, Hold, PageFilter, PendingState, QueryFilter, Span, Tags,
    Transfer, Unavailable,
};
use std::alloc::Global;

/// Records that are looked through for a page.
pub(crate) trait Source {
    type Record: Copy;

    // The records of a machine, oldest first; what holds of each of them; and when one was
    // accepted.
    ghost records_in: { Self → Machine → List Self.Record };

    ghost is_kept: { Machine → Self.Record → Type 0 };

    ghost time_of: { Self.Record → ℕ };

    /// When a record was accepted, in nanoseconds.
    fn time(&self, record: &Self::Record) -> u64
        ensures { result ≡ time_of record.now };

    /// The records within a span of time.
    fn within<T: Tables>(
        &self,
        alloc: Global,
        tables: &mut T,
        span: &Span,
    ) -> Result<Vec<Self::Record>, Unavailable>
        requires { T.means.is_usable tables.old }
        ensures { Searches T.means
            (λ m found. found.items ≡ within time_of span.now (records_in self.now m))
            tables.old tables.new result };

    /// The records of a valid machine stand in order of time.
    ghost in_turn: { (source : Self) (m : Machine) → IsValid m →
        AreRecords time_of (is_kept m) (records_in source m) };
}

/// A question that is answered in pages.
pub(crate) trait Query: Source {
    type Shown: Drop;

    // What is shown of a record, if it is asked for; and which page is asked for.
    ghost shown_in: { Self → Machine → Self.Record → Option Self.Shown };

    ghost asks: { Self → Asked };

    /// Which page is asked for.
    fn page(&self) -> PageFilter
        ensures { result ≡ asks self.now };

    /// What is shown of a record of the tables, if it is asked for.
    fn show<T: Tables>(
        &self,
        tables: &mut T,
        record: &Self::Record,
    ) -> Result<Option<Self::Shown>, Unavailable>
        requires usable { T.means.is_usable tables.old }
        requires kept { T.means.is_live tables.old →
            Self.is_kept (T.means.state tables.old).now record.now }
        ensures { Searches T.means (λ m found. found ≡ shown_in self.now m record.now)
            tables.old tables.new result };
}

/// The accounts that a query asks for, with their balances at the clock.
#[derive(Drop)]
pub(crate) struct AccountQuery {
    pub(crate) asked: QueryFilter,
}

impl Source for AccountQuery {
    type Record = Account;

    ghost records_in = { λ query m. m.accounts };

    ghost is_kept = { λ m account. account_with account.id m.accounts ≡ Some account };

    ghost time_of = { λ account. account.timestamp };

    fn time(&self, account: &Account) -> u64 {
        account.timestamp
    }

    fn within<T: Tables>(
        &self,
        alloc: Global,
        tables: &mut T,
        span: &Span,
    ) -> Result<Vec<Account>, Unavailable> {
        tables.accounts_within(alloc, span)
    }

    ghost in_turn = { λ query. account_records };
}

impl Query for AccountQuery {
    type Shown = AccountWithBalances;

    ghost shown_in = { λ query m account. asked_account m query.asked.tags account };

    ghost asks = { λ query. query.asked.page };

    fn page(&self) -> PageFilter {
        self.asked.page
    }

    fn show<T: Tables>(
        &self,
        tables: &mut T,
        account: &Account,
    ) -> Result<Option<AccountWithBalances>, Unavailable> {
        if self.asked.tags.asks(&Tags::of_account(account)) {
            tables.account(account.id)
        } else {
            Ok(None)
        }
    }
}

/// A question about transfers.
#[derive(Drop)]
pub(crate) struct AboutTransfers<A> {
    pub(crate) asked: A,
}

/// The transfers that a query asks for.
pub(crate) type TransferQuery = AboutTransfers<QueryFilter>;

/// The holds that are open at the clock.
pub(crate) type OpenHolds = AboutTransfers<PageFilter>;

impl<A> Source for AboutTransfers<A> {
    type Record = Transfer;

    ghost records_in = { λ query m. m.transfers };

    ghost is_kept = { λ m transfer. transfer_with transfer.id m.transfers ≡ Some transfer };

    ghost time_of = { λ transfer. transfer.timestamp };

    fn time(&self, transfer: &Transfer) -> u64 {
        transfer.timestamp
    }

    fn within<T: Tables>(
        &self,
        alloc: Global,
        tables: &mut T,
        span: &Span,
    ) -> Result<Vec<Transfer>, Unavailable> {
        tables.transfers_within(alloc, span)
    }

    ghost in_turn = { λ query. transfer_records };
}

impl Query for TransferQuery {
    type Shown = Transfer;

    ghost shown_in = { λ query m transfer. asked_transfer query.asked.tags transfer };

    ghost asks = { λ query. query.asked.page };

    fn page(&self) -> PageFilter {
        self.asked.page
    }

    fn show<T: Tables>(
        &self,
        _tables: &mut T,
        transfer: &Transfer,
    ) -> Result<Option<Transfer>, Unavailable> {
        if self.asked.tags.asks(&Tags::of_transfer(transfer)) {
            Ok(Some(*transfer))
        } else {
            Ok(None)
        }
    }
}

impl Query for OpenHolds {
    type Shown = Hold;

    ghost shown_in = { λ query m transfer. option_and_then if_open (hold_of m transfer) };

    ghost asks = { λ query. query.asked };

    fn page(&self) -> PageFilter {
        self.asked
    }

    fn show<T: Tables>(
        &self,
        tables: &mut T,
        transfer: &Transfer,
    ) -> Result<Option<Hold>, Unavailable> {
        let hold = hold_of(tables, transfer)?;
        Ok(hold.filter(|hold| hold.state == PendingState::Open))
    }
}
