//! Accounts and transfers in a span of time.

use super::acts::{Spanned, Times};
use super::sample::{account, pending};
use super::unclaimed::{Unclaimed, claims_nothing};
use ledger_sql::spans;
use records::{Account, Transfer, Unavailable};
use sqlite::Connection;
use std::alloc::Global;

/// Whether these rows are found, in this order, field by field.
pub fn tells_span<S: Unclaimed>(
    alloc: Global,
    conn: &mut Connection<S>,
    asked: &Spanned,
    told: Times,
) -> Result<bool, Unavailable> {
    let Spanned(tenant, (first, last), most) = *asked;
    claims_nothing(conn);
    match told {
        Times::OldestAccounts(rows) => {
            let found = spans::oldest_accounts(alloc, conn, tenant, first, last, most)?;
            Ok(are_accounts(&found, rows))
        }
        Times::NewestAccounts(rows) => {
            let found = spans::newest_accounts(alloc, conn, tenant, first, last, most)?;
            Ok(are_accounts(&found, rows))
        }
        Times::OldestTransfers(rows) => {
            let found = spans::oldest_transfers(alloc, conn, tenant, first, last, most)?;
            Ok(are_transfers(&found, rows))
        }
        Times::NewestTransfers(rows) => {
            let found = spans::newest_transfers(alloc, conn, tenant, first, last, most)?;
            Ok(are_transfers(&found, rows))
        }
    }
}

fn are_accounts(found: &[Account], rows: &[(u128, u32)]) -> bool {
    for (account_found, (id, time)) in found.iter().zip(rows) {
        if *account_found != account(*id, *time, 10) {
            return false;
        }
    }
    found.len() == rows.len()
}

fn are_transfers(found: &[Transfer], rows: &[(u128, u32)]) -> bool {
    for (transfer_found, (id, time)) in found.iter().zip(rows) {
        if *transfer_found != pending(*id, *time) {
            return false;
        }
    }
    found.len() == rows.len()
}
