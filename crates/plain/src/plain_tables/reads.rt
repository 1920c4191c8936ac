//! Reads over plain lists: everything is searched and summed anew.
ghost use Rattle.std.specs.Prelude.{◌≡◌, IfOk};
ghost use Rattle.records.specs.Queries.{accounts_within, transfers_within};
ghost use Rattle.chain.specs.AccountEntries.{account_entries_within};

use super::PlainTables;
use crate::entries::account_rows;
use crate::page::first_of_span;
use chain::AccountEntry;
use engine::sums_fit;
use records::{Account, Span, Transfer};
use std::alloc::{AllocError, Global};

impl PlainTables {
    /// The accounts within a span of time.
    pub(crate) fn accounts_in(&self, alloc: Global, span: &Span) -> Result<Vec<Account>, AllocError>
        ensures { IfOk result (λ found. found.items ≡ accounts_within self.now.now span.now) }
    {
        let found = self
            .accounts
            .iter()
            .copied()
            .filter(|account| span.is_within(account.timestamp))
            .collect(alloc)?;
        Ok(first_of_span(span, found))
    }

    /// The transfers within a span of time.
    pub(crate) fn transfers_in(
        &self,
        alloc: Global,
        span: &Span,
    ) -> Result<Vec<Transfer>, AllocError>
        ensures { IfOk result (λ found. found.items ≡ transfers_within self.now.now span.now) }
    {
        let found = self
            .transfers
            .iter()
            .copied()
            .filter(|transfer| span.is_within(transfer.timestamp))
            .collect(alloc)?;
        Ok(first_of_span(span, found))
    }

    /// An account's entries within a span of time.
    pub(crate) fn entries_in(
        &self,
        alloc: Global,
        account: u128,
        span: &Span,
    ) -> Result<Vec<AccountEntry>, AllocError>
        ensures { IfOk result
            (λ found. found.items ≡ account_entries_within self.now.now account span.now) }
    {
        sums_fit();
        let rows = account_rows(alloc, &self.transfers, account)?;
        let found = rows
            .iter()
            .copied()
            .filter(|entry| span.is_within(entry.transfer.timestamp))
            .collect(alloc)?;
        Ok(first_of_span(span, found))
    }
}
