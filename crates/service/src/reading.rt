//! Reads of one tenant's ledger, whose replies show what is found.
ghost use Rattle.std.specs.Prelude.{ℕ, Ok};
ghost use Rattle.wire.specs.declared.request.Request.TheVariants as asks;
ghost use Rattle.service.specs.Calls.{BeginsOver};

use crate::begun::Begun;
use crate::linting::begin_lint;
use crate::querying::begin_query;
use crate::showing::begin_list;
use crate::statements::begin_statement;
use chain::Ledgers;
use std::alloc::Global;
use wire::{Outcome, Read};

/// Begins the reply to who asks for a read.
pub(crate) fn begin_read<L: Ledgers>(
    alloc: Global,
    ledgers: &mut L,
    digest: &[u8; 32],
    read: Read,
) -> Begun
    ensures { (moment : ℕ) → BeginsOver L.means digest.now (Ok (asks.Read read)) moment
        ledgers.old ledgers.new result }
{
    match read {
        Read::LookupAccounts(ids) => {
            let found = ledgers.lookup_accounts(alloc, digest, ids.as_slice());
            let shows = |clock, accounts| Outcome::Accounts { clock, accounts };
            begin_list(alloc, found, shows)
        }
        Read::LookupTransfers(ids) => {
            let found = ledgers.lookup_transfers(alloc, digest, ids.as_slice());
            let shows = |clock, transfers| Outcome::Transfers { clock, transfers };
            begin_list(alloc, found, shows)
        }
        Read::HistoryTransfers(asked) => {
            let found = ledgers.history_transfers(alloc, digest, &asked);
            let shows = |clock, transfers| Outcome::Transfers { clock, transfers };
            begin_list(alloc, found, shows)
        }
        Read::HistoryBalances(asked) => {
            let found = ledgers.history_balances(alloc, digest, &asked);
            let shows = |clock, balances| Outcome::Balances { clock, balances };
            begin_list(alloc, found, shows)
        }
        Read::Query(query) => begin_query(alloc, ledgers, digest, &query),
        Read::LookupPending(ids) => {
            let found = ledgers.lookup_pending(alloc, digest, ids.as_slice());
            let shows = |clock, holds| Outcome::Holds { clock, holds };
            begin_list(alloc, found, shows)
        }
        Read::Statement(account) => begin_statement(alloc, ledgers, digest, account),
        Read::Lint(events) => begin_lint(alloc, ledgers, digest, events),
    }
}
