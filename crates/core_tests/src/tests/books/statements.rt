use super::firms::{FIRM, Firms};
use super::reads::posted_in_part;
use crate::tests::asserting::same;
use amount::Amount;
use chain::ReadFault;
use records::{Kind, Order, Side, SinkFault, StatementRow, TransferEvent};
use samples::{PENDING, balances, post, transfer, with};
use std::alloc::Global;
use std::process::Abort;
use std::test::Fail;

// A row of account 1, which every transfer debits.
fn debit(
    timestamp: u64,
    transfer_id: u128,
    kind: Kind,
    amount: u128,
    debits: (u128, u128),
) -> StatementRow {
    StatementRow {
        timestamp,
        transfer_id,
        side: Side::Debit,
        kind,
        amount: Amount::new(amount),
        balances: balances(debits, (0, 0)),
    }
}

// The rows of account 1 after a part is posted.
fn pending_row() -> StatementRow {
    debit(5, 100, Kind::Pending, 100, (100, 0))
}

fn post_row() -> StatementRow {
    debit(6, 101, Kind::Post, 40, (0, 40))
}

// Looks whether the statement of account 1 has these rows.
fn is_told(rt: &impl Abort, firms: &mut Firms, order: Order, want: &[StatementRow]) {
    let (told, rows) = firms.statement(&FIRM, 1, order, 10);
    same(rt, "the statement", told, Ok(()));
    same(rt, "its rows", rows.as_slice(), want);
}

#[test]
fn statement_of_an_account(rt: HostRuntime) -> Result<(), Fail> {
    let mut firms = posted_in_part(rt.alloc())?;
    let oldest_first = [pending_row(), post_row()];
    is_told(&rt, &mut firms, Order::Oldest, &oldest_first);
    let newest_first = [post_row(), pending_row()];
    is_told(&rt, &mut firms, Order::Newest, &newest_first);
    Ok(())
}

// The base, a pending transfer whose timeout ends before its post, and a transfer behind it.
fn expired(alloc: Global) -> Result<Firms, Fail> {
    let pending = TransferEvent {
        timeout: 1,
        ..with(PENDING, transfer(100, (1, 2), 100))
    };
    let mut firms = Firms::after(alloc, &[pending])?;
    firms.send(1_000_000_004, &[post(101, 100, u128::MAX)])?;
    firms.send(0, &[transfer(102, (1, 2), 10)])?;
    Ok(firms)
}

#[test]
fn statement_after_an_expiry(rt: HostRuntime) -> Result<(), Fail> {
    let mut firms = expired(rt.alloc())?;
    let want = [
        pending_row(),
        debit(1_000_000_006, 102, Kind::Single, 10, (0, 10)),
    ];
    is_told(&rt, &mut firms, Order::Oldest, &want);
    Ok(())
}

#[test]
fn a_refused_row_ends_the_statement(rt: HostRuntime) -> Result<(), Fail> {
    let mut firms = posted_in_part(rt.alloc())?;
    let (told, rows) = firms.statement(&FIRM, 1, Order::Newest, 1);
    let refused = ReadFault::Sink(SinkFault::Write);
    same(&rt, "the statement", told, Err(refused));
    same(&rt, "its rows", rows.as_slice(), [post_row()].as_slice());
    Ok(())
}
