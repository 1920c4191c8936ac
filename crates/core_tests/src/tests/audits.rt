//! Ledgers undamaged and damaged, worked and generated, beside a plain audit that searches and sums
//! anew.

use crate::tests::asserting::{displays, same};
use crate::tests::cells::column;
use audit::{AuditFault, Damage, DamageKind, check};
use rows::{AllRows, TenantOfDigest};
use std::alloc::{AllocError, Global};
use std::process::Abort;

mod damaged;
mod dice;
mod generated;
mod plain_audit;
mod plain_ledger;
mod plain_tables;
mod random;
mod worked_rows;

use damaged::{AT_ONCE, DAMAGES, FIRST_OF, damaged};
use worked_rows::{Sample, expired, posted_in_part, tenant};

// The number of the kind, the first byte of the digest and the place; none where the rows pass.
fn told(alloc: Global, version: u32, tenants: Vec<TenantOfDigest>) -> Option<(u8, u8, usize)> {
    let rows = AllRows {
        version,
        directory: Vec::new(alloc),
        tenants,
    };
    match check(alloc, &rows) {
        Err(AuditFault::Damaged(damage)) => {
            Some((damage.kind.number(), damage.digest[0], damage.place))
        }
        Err(AuditFault::Memory) => Some((0, 0, 0)),
        Ok(()) => None,
    }
}

// The same of one tenant alone.
fn told_alone(
    alloc: Global,
    version: u32,
    one: TenantOfDigest,
) -> Result<Option<(u8, u8, usize)>, AllocError> {
    let mut tenants = Vec::new(alloc);
    tenants.push(one)?;
    Ok(told(alloc, version, tenants))
}

// The number of the kind and the place, of one tenant.
fn found(alloc: Global, version: u32, sample: &Sample) -> Result<Option<(u8, usize)>, AllocError> {
    let one = tenant(alloc, version, 1, sample)?;
    Ok(told_alone(alloc, version, one)?.map(|(kind, _, place)| (kind, place)))
}

// Looks at what is found in each version.
fn is_found(
    rt: &impl Abort,
    alloc: Global,
    case: &str,
    sample: &Sample,
    wrong: Option<(u8, usize)>,
) -> Result<(), AllocError> {
    for version in [1, 2, 3] {
        same(rt, case, &found(alloc, version, sample)?, &wrong);
    }
    Ok(())
}

#[test]
fn undamaged(rt: HostRuntime) -> Result<(), AllocError> {
    let alloc = rt.alloc();
    is_found(&rt, alloc, "posted in part", &posted_in_part(), None)?;
    is_found(&rt, alloc, "expired", &expired(), None)?;
    let no_tenants = told(alloc, 3, Vec::new(alloc));
    same(&rt, "no tenants", no_tenants, None);
    Ok(())
}

// A damage is told alike in each version that has its rows.
#[test]
fn each_damage(rt: HostRuntime) -> Result<(), AllocError> {
    for (case, (cells, first, wrong)) in DAMAGES.iter().enumerate() {
        let sample = damaged(cells);
        for version in *first..4 {
            let told = (case, version, found(rt.alloc(), version, &sample)?);
            same(&rt, "the damage", told, (case, version, Some(*wrong)));
        }
    }
    for (count, wrong) in FIRST_OF {
        let sample = damaged(AT_ONCE.get(..count).unwrap_or(&[]));
        let told = (count, found(rt.alloc(), 3, &sample)?);
        same(&rt, "the first damage", told, (count, Some(wrong)));
    }
    Ok(())
}

#[test]
fn a_row_too_many_or_too_few(rt: HostRuntime) -> Result<(), AllocError> {
    let mut few = tenant(rt.alloc(), 3, 1, &posted_in_part())?;
    few.rows.balances.truncate(3);
    let found = told_alone(rt.alloc(), 3, few)?;
    same(&rt, "a balance less", found, Some((4, 1, 3)));
    let mut many = tenant(rt.alloc(), 3, 1, &posted_in_part())?;
    many.rows.history.push(posted_in_part().history[0])?;
    let found = told_alone(rt.alloc(), 3, many)?;
    same(&rt, "an entry more", found, Some((6, 1, 4)));
    Ok(())
}

#[test]
fn clocks(rt: HostRuntime) -> Result<(), AllocError> {
    let mut sample = posted_in_part();
    for (case, clock, wrong) in [
        ("behind the accounts", 3, Some((7, 0))),
        ("behind the batch", 6, Some((7, 0))),
        ("later", 8, None),
        ("the latest", 1 << 62, None),
        ("too late", (1 << 62) + 1, Some((7, 0))),
    ] {
        sample.clock = Some(clock);
        is_found(&rt, rt.alloc(), case, &sample, wrong)?;
    }
    Ok(())
}

// Where the clock is behind the entries, the rows are those at the clock that the entries reach.
#[test]
fn a_clock_behind_the_entries(rt: HostRuntime) -> Result<(), AllocError> {
    let mut sample = expired();
    sample.clock = Some(4);
    for (state, wrong) in [(3, (7, 0)), (0, (5, 0))] {
        sample.statuses[0].state = state;
        same(
            &rt,
            "the clock 4",
            found(rt.alloc(), 3, &sample)?,
            Some(wrong),
        );
    }
    Ok(())
}

#[test]
fn failed_ids(rt: HostRuntime) -> Result<(), AllocError> {
    for (failed, wrong) in [
        ([Some(99), Some(102), None], None),
        ([Some(101), None, None], Some((8, 0))),
        ([Some(99), Some(101), Some(103)], Some((8, 1))),
        ([Some(0), None, None], Some((8, 0))),
        ([Some(99), Some(99), None], Some((8, 1))),
        ([Some(99), Some(103), Some(102)], Some((8, 2))),
    ] {
        let mut sample = posted_in_part();
        sample.failed = failed;
        same(&rt, "failed ids", found(rt.alloc(), 3, &sample)?, wrong);
    }
    Ok(())
}

#[test]
fn the_first_of_all_tenants(rt: HostRuntime) -> Result<(), AllocError> {
    let alloc = rt.alloc();
    let mut wrong_balance = posted_in_part();
    wrong_balance.balances[1].dd = column(41);
    let mut wrong_history = posted_in_part();
    wrong_history.history[0].dp = column(1);
    let mut tenants = Vec::new(alloc);
    tenants.push(tenant(alloc, 3, 5, &posted_in_part())?)?;
    tenants.push(tenant(alloc, 3, 3, &wrong_history)?)?;
    tenants.push(tenant(alloc, 3, 9, &wrong_balance)?)?;
    tenants.push(tenant(alloc, 3, 7, &wrong_balance)?)?;
    let first = told(alloc, 3, tenants);
    same(&rt, "of four tenants", first, Some((4, 7, 1)));
    Ok(())
}

#[test]
fn prints_why_rows_do_not_pass(rt: HostRuntime) -> Result<(), AllocError> {
    let damage = Damage {
        kind: DamageKind::Clock,
        digest: [7; 32],
        place: 0,
    };
    for (fault, text) in [
        (AuditFault::Damaged(damage), "damaged"),
        (AuditFault::Memory, "out of memory"),
    ] {
        displays(&rt, rt.alloc(), &fault, text)?;
    }
    Ok(())
}
