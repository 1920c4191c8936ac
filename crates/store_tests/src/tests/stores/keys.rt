//! Another key for a tenant: its machine stands under the new one, and nobody under the old one.

use super::bench::Bench;
use super::faults::NOTHING;
use super::playing::{BASE, other_answer, play, play_from_base};
use crate::tests::disks::{Calls, Faulty, InMemory, WIDE};
use std::alloc::Global;
use std::process::Abort;

/// `Nobody` has the third digest. The batch under the new key is a retry.
const CHANGED: &str = "\
North transfers 100: 1>2 100 => clock 5: 0@5
North key 3 => Ok(())
North transfers 100: 1>2 100 => UnknownKey
North knows => Ok(false)
North digest => Ok(Some(3))
Nobody transfers 100: 1>2 100 => clock 6: 18@6
Nobody see 1 => Ok((Some([0, 100, 0, 0]), None, 6))
South see 1 => Ok((Some([0, 0, 0, 0]), None, 4))
North directory => version 3: 1 North [3, 3] 1; 2 South [2, 2] 0;
File close => closed
File open => opened
North knows => Ok(false)
Nobody see 1 => Ok((Some([0, 100, 0, 0]), None, 6))
Nobody transfers 101: 1>2 1 => clock 7: 0@7

North key 3 => Ok(())
North key 3 => Ok(())
Nobody see 1 => Ok((Some([0, 0, 0, 0]), None, 4))
South key 1 => Ok(())
North see 1 => Ok((Some([0, 0, 0, 0]), None, 4))
North directory => version 3: 1 North [3, 3] 0; 2 South [1, 1] 0;
North key 2 => Ok(())
South see 1 => Ok((Some([0, 0, 0, 0]), None, 4))
North directory => version 3: 1 North [2, 2] 0; 2 South [1, 1] 0;

East key 4 => Err(NoTenant)
East key 2 => Err(NoTenant)
North key 2 => Err(DigestTaken)
South key 1 => Err(DigestTaken)
North key 1 => Ok(())
South key 2 => Ok(())
North directory => version 3: 1 North [1, 1] 0; 2 South [2, 2] 0;
North transfers 100: 1>2 1 => clock 5: 0@5
East add 3 => Ok(())
East key 4 => Ok(())
Nobody knows => Ok(false)
East digest => Ok(Some(4))";

#[test]
fn another_key(rt: HostRuntime) {
    play_from_base(&rt, rt.alloc(), CHANGED);
}

/// A crash, and an opening.
const REOPENED: &str = "\
File crash => closed
File open => opened
South see 1 => Ok((Some([0, 0, 0, 0]), None, 4))";

const BEFORE: &str = "\
Nobody knows => Ok(false)
North see 1 => Ok((Some([0, 0, 0, 0]), None, 4))";

const AFTER: &str = "\
North knows => Ok(false)
Nobody see 1 => Ok((Some([0, 0, 0, 0]), None, 4))";

/// Changes a key, and looks which one is good behind an opening. Tells whether the disk failed.
fn changes<D: Faulty>(rt: &impl Abort, bench: &mut Bench<D>) -> bool {
    let told = bench.answer("North key 3").expect(rt, "no memory");
    let has_failed = told.as_str() != "Ok(())";
    if has_failed {
        assert_eq!(rt; told.as_str(), "Err(Unavailable(Disk))");
        play(rt, bench, NOTHING);
    }
    play(rt, bench, REOPENED);
    if other_answer(rt, bench, AFTER).is_some() {
        assert!(rt; has_failed);
        play(rt, bench, BEFORE);
    }
    has_failed
}

/// Whether a log that stops after so many calls does so while a key is changed.
fn is_met<D: Faulty, R: Abort>(rt: &R, alloc: Global, calls: u64) -> bool {
    let mut bench: Bench<D> = Bench::new(alloc, WIDE, Calls::First(calls), Calls::All);
    let has_base = other_answer(rt, &mut bench, BASE).is_none();
    let is_met = has_base && changes(rt, &mut bench);
    bench.end();
    is_met
}

/// Whatever call the disk stops at, one of the two keys is good, and where it was told the new one.
#[test]
fn a_disk_that_stops_while_a_key_is_changed(rt: HostRuntime) {
    let mut met: u64 = 0;
    for calls in 20..80u64 {
        if is_met::<InMemory, _>(&rt, rt.alloc(), calls) {
            met = met.saturating_add(1);
        }
    }
    assert!(rt; 2 < met, "met {met} times");
}
