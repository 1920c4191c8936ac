//! Disks that fail while a ledger is made, gets a tenant, and runs batches.

use super::bench::Bench;
use super::playing::{BASE, other_answer, play};
use crate::tests::disks::{Calls, Faulty, InMemory, WIDE};
use std::alloc::Global;
use std::process::Abort;

/// What answers where nothing fails.
const STEPS: &str = "\
File create => made
North add 1 => Ok(())
North transfers at 10 => clock 10:
North transfers at 10 => clock 10:";

/// What is answered from a fault of the disk on.
pub const NOTHING: &str = "\
North ready => (false, 3)
North knows => Err(Disk)
Nobody knows => Err(Disk)
North digest => Err(Disk)
North add 1 => Err(Unavailable(Disk))
North key 1 => Err(Unavailable(Disk))
North transfers 900: 1>2 1 => Unavailable(Disk)
North directory => Disk
North rows failed => Disk
North account 1 => Unavailable(Disk)
North transfer 1 => Unavailable(Disk)
North history 3 3 1 => Unavailable(Disk)
North balances 3 3 1 => Unavailable(Disk)
North statement 3 3 1 => Err(Unavailable(Disk))";

/// Whether a disk fails in these steps; from then on nothing is answered.
fn fails<D: Faulty, R: Abort>(rt: &R, alloc: Global, calls: Calls) -> bool {
    let mut bench: Bench<D> = Bench::new(alloc, WIDE, calls, Calls::All);
    let has_failed = has_failed(rt, &mut bench, calls);
    bench.end();
    has_failed
}

/// The same, of a bench whose log has such calls.
fn has_failed<D: Faulty>(rt: &impl Abort, bench: &mut Bench<D>, calls: Calls) -> bool {
    let Some(told) = other_answer(rt, bench, STEPS) else {
        return false;
    };
    assert!(rt; told.contains("Unavailable(Disk)"), "{calls:?}: {told}");
    if bench.is_open() {
        play(rt, bench, NOTHING);
    }
    true
}

/// A disk that ends at each of the first calls, and one that fails once and serves again: it is not
/// served from, since what the store holds may be behind it.
#[test]
fn a_disk_that_fails(rt: HostRuntime) {
    for calls in 0..30u64 {
        assert!(rt;
            fails::<InMemory, _>(&rt, rt.alloc(), Calls::First(calls)),
            "after {calls}"
        );
    }
    for calls in 0..16u64 {
        assert!(rt;
            fails::<InMemory, _>(&rt, rt.alloc(), Calls::AllButOne(calls)),
            "at {calls}"
        );
    }
    assert!(rt; !fails::<InMemory, _>(&rt, rt.alloc(), Calls::All));
}

/// A reopening that is refused, and the next one.
const MENDED: &str = "\
North reopen-without-memory => Err(Refused { fault: Unavailable(Memory), stands: true })
North ready => (false, 3)
North knows => Err(Disk)
North reopen => Ok(())
North ready => (true, 3)";

/// What is answered to a command.
fn told<D: Faulty>(rt: &impl Abort, bench: &mut Bench<D>, command: &str) -> String {
    bench.answer(command).expect(rt, "no memory")
}

/// Sends one transfer, and where the disk fails, once more after a reopening: it is kept once.
/// Tells whether it did.
fn sends_or_mends<D: Faulty>(
    rt: &impl Abort,
    alloc: Global,
    bench: &mut Bench<D>,
    id: u64,
) -> bool {
    let command = format!(in alloc; "North transfers {id}: 1>2 1").expect(rt, "no memory");
    let first = told(rt, bench, &command);
    let has_failed = !first.contains(": 0@");
    if has_failed {
        assert_eq!(rt; first.as_str(), "Unavailable(Disk)");
        play(rt, bench, NOTHING);
        play(rt, bench, MENDED);
        // It is run, now or before.
        let again = told(rt, bench, &command);
        assert!(rt; again.contains(": 0@") || again.contains(": 18@"));
    }
    has_failed
}

/// Whether ten transfers of 1 were kept, and none with the id 900.
fn has_ten<D: Faulty>(rt: &impl Abort, bench: &mut Bench<D>) -> bool {
    told(rt, bench, "North transfer 900").ends_with(":")
        && told(rt, bench, "North see 1").contains("Some([0, 10, 0, 0])")
}

/// Ten transfers, one of which meets the fault of the disk; what was sent between that and the
/// reopening never shows. Tells whether the fault was met.
fn is_mended<D: Faulty, R: Abort>(rt: &R, alloc: Global, before: u64) -> bool {
    let mut bench: Bench<D> = Bench::new(alloc, WIDE, Calls::AllButOne(before), Calls::All);
    let has_base = other_answer(rt, &mut bench, BASE).is_none();
    let is_met = has_base && sends_ten(rt, alloc, &mut bench);
    assert!(rt; !has_base || has_ten(rt, &mut bench), "at {before}");
    bench.end();
    is_met
}

/// Sends the ten. Tells whether the fault was met.
fn sends_ten<D: Faulty>(rt: &impl Abort, alloc: Global, bench: &mut Bench<D>) -> bool {
    let mut is_met = false;
    for id in 100..110u64 {
        is_met |= sends_or_mends(rt, alloc, bench, id);
    }
    is_met
}

#[test]
fn a_fault_is_mended_by_a_reopening(rt: HostRuntime) {
    let mut met: u64 = 0;
    for place in 4..14u64 {
        if is_mended::<InMemory, _>(&rt, rt.alloc(), place * 5) {
            met = met.saturating_add(1);
        }
    }
    assert!(rt; 2 < met, "met {met} times");
}
