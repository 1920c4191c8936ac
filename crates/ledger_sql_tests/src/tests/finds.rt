//! Rows that are found by their keys.

use super::acts::Row;
use super::sample::{account, balance, pending, post, status};
use super::unclaimed::{Unclaimed, claims_nothing};
use ledger_sql::finding;
use records::Unavailable;
use sqlite::Connection;

/// What is found by a row's key.
#[derive(Clone, Copy, PartialEq, Eq)]
pub enum Found {
    Nothing,
    ThisRow,
    AnotherRow,
}

fn told<T: PartialEq + Drop>(
    found: Result<Option<T>, Unavailable>,
    row: T,
) -> Result<Found, Unavailable> {
    match found? {
        None => Ok(Found::Nothing),
        Some(found) if found == row => Ok(Found::ThisRow),
        Some(_) => Ok(Found::AnotherRow),
    }
}

pub fn find<S: Unclaimed>(conn: &mut Connection<S>, row: &Row) -> Result<Found, Unavailable> {
    claims_nothing(conn);
    match row {
        Row::Tenant(number, _, digest) => told(finding::find_tenant(conn, &[*digest; 32]), *number),
        Row::Clock(tenant, clock) => told(finding::find_clock(conn, *tenant), u64::from(*clock)),
        Row::Account(tenant, id, timestamp, code) => told(
            finding::find_account(conn, *tenant, *id),
            account(*id, *timestamp, *code),
        ),
        Row::Pending(id, timestamp) => told(
            finding::find_transfer(conn, 1, *id),
            pending(*id, *timestamp),
        ),
        Row::Post => told(finding::find_transfer(conn, 1, 101), post()),
        Row::Balance(tenant, id, columns) => told(
            finding::find_balance(conn, *tenant, *id),
            balance(*id, *columns),
        ),
        Row::Status(transfer, state, timestamp) => told(
            finding::find_status(conn, 1, *transfer),
            status(*transfer, *state, *timestamp),
        ),
        Row::Failed(tenant, id) => {
            // A row with nothing but its key.
            let is_there = finding::has_failed(conn, *tenant, *id)?;
            Ok(if is_there {
                Found::ThisRow
            } else {
                Found::Nothing
            })
        }
    }
}

/// The number of the tenant that has this name.
pub fn number_of<S: Unclaimed>(
    conn: &mut Connection<S>,
    name: &str,
) -> Result<Option<i64>, Unavailable> {
    claims_nothing(conn);
    match finding::find_tenant_by_name(conn, name)? {
        Some(row) => Ok(Some(row.number)),
        None => Ok(None),
    }
}

/// Whether the row of the tenant with this number has this name; where there is none, no name is
/// right.
pub fn is_named<S: Unclaimed>(
    conn: &mut Connection<S>,
    number: i64,
    name: &str,
) -> Result<bool, Unavailable> {
    claims_nothing(conn);
    match finding::find_tenant_by_number(conn, number)? {
        Some(row) => Ok(row.number == number && row.name.as_str() == name),
        None => Ok(false),
    }
}
