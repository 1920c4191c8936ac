//! Statements of which a piece is refused: a reply is whole or `unavailable`, and a sink has a
//! beginning.
use super::chunks::in_chunks;
use super::failing::FrailFirms;
use super::looked_at::send;
use super::messages::get;
use super::scripts::{Answers, base};
use crate::tests::asserting::same;
use crate::tests::messages::{FIRST, HEADER, UNAVAILABLE};
use chain::ReadFault;
use records::{Order, StatementRow, Unavailable};
use std::alloc::{AllocError, Global};
use std::process::Abort;
use std::test::Fail;
use tenants::{Key, digest};

/// So many transfers have the ids and sums from 1 on, and timestamps from 5 on. They are read in
/// three pieces.
pub(crate) const ENTRIES: u64 = 1001;

/// A firm with these transfers.
pub(crate) fn filled(rt: &impl Abort, alloc: Global) -> Result<FrailFirms, Fail> {
    let mut firms = base(rt, alloc)?;
    send(alloc, &mut firms, 1, 701)?;
    send(alloc, &mut firms, 701, ENTRIES + 1)?;
    Ok(firms.frail())
}

/// The reply that has the whole statement of account 1, with so many entries.
pub(crate) fn whole(alloc: Global, entries: u64) -> Result<Vec<u8>, AllocError> {
    let mut csv = HEADER.to_string(alloc)?;
    for id in 1..=entries {
        let timestamp = id.saturating_add(4);
        let line = format!(in alloc; "{timestamp},{id},debit,single,1,0,{id},0,0\n")?;
        csv.push_str(&line)?;
    }
    in_chunks(alloc, &csv)
}

/// A statement of which a piece is refused, behind so many others, is told as unavailable. Behind
/// that the same message is told the whole, or where the disk failed once it is opened again.
fn is_whole_or_unavailable(
    rt: &impl Abort,
    alloc: Global,
    firms: &mut FrailFirms,
    (message, whole): (&[u8], &[u8]),
    (before, why): (u64, Unavailable),
) {
    firms.ledgers.refusal = Some((before, why));
    let first = firms.answer(alloc, message, 0);
    same(rt, "refused", first.bytes(), UNAVAILABLE.as_bytes());
    if why == Unavailable::Disk {
        let second = firms.answer(alloc, message, 0);
        same(rt, "failed", second.bytes(), UNAVAILABLE.as_bytes());
        firms.ledgers.is_shut = false;
    }
    same(rt, "again", firms.answer(alloc, message, 0).bytes(), whole);
}

#[test]
fn tells_no_beginning_of_a_statement(rt: HostRuntime) -> Result<(), Fail> {
    let message = get(rt.alloc(), "/statement/1", FIRST)?;
    let whole = whole(rt.alloc(), ENTRIES)?;
    let mut firms = filled(&rt, rt.alloc())?;
    for why in [Unavailable::Memory, Unavailable::Size, Unavailable::Disk] {
        for before in [0, 1, 2] {
            is_whole_or_unavailable(
                &rt,
                rt.alloc(),
                &mut firms,
                (&message, &whole),
                (before, why),
            );
        }
    }
    firms.ledgers.refusal = Some((3, Unavailable::Memory));
    same(
        &rt,
        "three pieces",
        firms.answer(rt.alloc(), &message, 0).bytes(),
        &whole,
    );
    Ok(())
}

/// The timestamp and the id of an entry, by its place from one end.
fn entry(order: Order, place: u64) -> (u64, u128) {
    let id = match order {
        Order::Oldest => place.saturating_add(1),
        Order::Newest => ENTRIES.saturating_sub(place),
    };
    (id.saturating_add(4), u128::from(id))
}

/// Whether these are the first entries from one end, and how many.
fn beginning(order: Order, rows: &[StatementRow]) -> Option<u64> {
    let mut many = 0;
    for row in rows {
        if (row.timestamp, row.transfer_id) != entry(order, many) {
            return None;
        }
        many = many.saturating_add(1);
    }
    Some(many)
}

/// A statement of which a piece is refused hands out a part, and then the same call the whole.
fn hands_out_a_part(
    rt: &impl Abort,
    firms: &mut FrailFirms,
    digest: &[u8; 32],
    (before, order): (u64, Order),
) {
    firms.ledgers.refusal = Some((before, Unavailable::Memory));
    let (rows, ended) = firms.rows(digest, 1, order);
    let want = Err(ReadFault::Unavailable(Unavailable::Memory));
    same(rt, "refused", ended, want);
    let many = beginning(order, &rows).unwrap_or(0);
    same(rt, "a part", 0 < many && many < ENTRIES, true);
    let (rows, ended) = firms.rows(digest, 1, order);
    same(rt, "again", ended, Ok(()));
    same(rt, "all", beginning(order, &rows), Some(ENTRIES));
}

#[test]
fn hands_out_a_beginning_of_a_statement(rt: HostRuntime) -> Result<(), Fail> {
    let first = digest(&Key::read(FIRST.as_bytes()).ok_or("no key")?);
    let mut firms = filled(&rt, rt.alloc())?;
    for order in [Order::Oldest, Order::Newest] {
        for before in [1, 2] {
            hands_out_a_part(&rt, &mut firms, &first, (before, order));
        }
    }
    Ok(())
}
