//! Tables with many rows.

use super::acts::{Call, Row};
use super::calls::answer;
use super::unclaimed::{Unclaimed, claims_nothing};
use ledger_sql::adding;
use records::{PendingState, Unavailable};
use sqlite::Connection;
use std::alloc::Global;
use std::test::Fail;

/// Adds so many rows to each table, with ids from 1000 on. It is true.
pub fn add_many<S: Unclaimed>(
    alloc: Global,
    conn: &mut Connection<S>,
    rows: u16,
) -> Result<bool, Fail> {
    for row in 0..rows {
        let id = u32::from(row) + 1000;
        let name = format!(in alloc; "T{id}")?;
        let mut digest = [0; 32];
        digest[..4].copy_from_slice(&id.to_be_bytes());
        claims_nothing(conn);
        adding::add_tenant(conn, i64::from(id), name.as_str(), &digest)?;
        add_rows(conn, id)?;
    }
    Ok(true)
}

/// The rows of a pending transfer, of an account and of a failed id, all with this id.
fn add_rows<S: Unclaimed>(conn: &mut Connection<S>, id: u32) -> Result<(), Unavailable> {
    let wide = u128::from(id);
    for call in [
        Call::Add(Row::Clock(i64::from(id), 4)),
        Call::Add(Row::Account(1, wide, id, 10)),
        Call::Add(Row::Balance(1, wide, [0; 4])),
        Call::Add(Row::Pending(wide, id)),
        Call::Add(Row::Status(wide, PendingState::Open, id)),
        Call::AddHistory(id, 1, 2, 100),
        Call::Add(Row::Failed(1, wide + 1000)),
    ] {
        answer(conn, &call)?;
    }
    Ok(())
}
