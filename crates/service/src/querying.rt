//! Queries of one tenant's ledger, as the pages that replies show.
ghost use Rattle.std.specs.Prelude.{ℕ, Ok};
ghost use Rattle.wire.specs.declared.read.Read.TheVariants as read;
ghost use Rattle.wire.specs.declared.request.Request.TheVariants as asks;
ghost use Rattle.service.specs.Calls.{BeginsOver};

use crate::begun::Begun;
use crate::showing::begin_page;
use chain::Ledgers;
use std::alloc::Global;
use wire::{Entries, Query};

/// Begins the reply to who asks for a page.
pub(crate) fn begin_query<L: Ledgers>(
    alloc: Global,
    ledgers: &mut L,
    digest: &[u8; 32],
    query: &Query,
) -> Begun
    ensures { (moment : ℕ) → BeginsOver L.means digest.now
        (Ok (asks.Read (read.Query query.now))) moment ledgers.old ledgers.new result }
{
    match query {
        Query::Accounts(asked) => {
            let page = ledgers.query_accounts(alloc, digest, asked);
            begin_page(alloc, page, Entries::Accounts)
        }
        Query::Transfers(asked) => {
            let page = ledgers.query_transfers(alloc, digest, asked);
            begin_page(alloc, page, Entries::Transfers)
        }
        Query::OpenPending(asked) => {
            let page = ledgers.open_pending(alloc, digest, asked);
            begin_page(alloc, page, Entries::OpenHolds)
        }
    }
}
