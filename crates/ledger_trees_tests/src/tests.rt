//! Both engines, given the same calls: their answers are the same, and so are their rows, which
//! each then reads of the other's store.

mod bare;
mod calls;
mod doubted;
mod drawn;
mod entries;
mod places;
mod sample;
mod sinks;
mod spans;
mod unclaimed;

use calls::{answer, whole};
use drawn::Draws;
use places::{new_ledger, over_texts, over_trees};
use std::alloc::Global;
use std::process::Abort;
use std::rt::HostRuntime;
use std::test::Fail;

/// The tenants that a ledger may have.
const TENANTS: [i64; 6] = [1, 2, 6, 7, 8, 9];

/// Gives the same calls to both engines.
fn play(rt: &impl Abort, alloc: Global, seed: u64, count: u32) -> Result<(), Fail> {
    let mut texts = new_ledger(alloc)?;
    let mut trees = over_trees(alloc, new_ledger(alloc)?.into_store())?;
    let mut draws = Draws::new(seed);
    for at in 0..count {
        let call = draws.call();
        let told = answer(&mut texts, alloc, &call)?;
        assert_eq!(rt;
            answer(&mut trees, alloc, &call)?,
            told,
            "{at} of {seed}: {call:?}"
        );
    }
    if let Some(call) = draws.last() {
        let told = answer(&mut texts, alloc, &call)?;
        assert_eq!(rt; answer(&mut trees, alloc, &call)?, told);
    }
    let rows = whole(&mut texts, alloc, &TENANTS)?;
    assert_eq!(rt; whole(&mut trees, alloc, &TENANTS)?, rows);
    let mut exchanged = over_texts(alloc, trees.into_store())?;
    assert_eq!(rt; whole(&mut exchanged, alloc, &TENANTS)?, rows);
    let mut exchanged = over_trees(alloc, texts.into_store())?;
    assert_eq!(rt; whole(&mut exchanged, alloc, &TENANTS)?, rows);
    Ok(())
}

#[test]
fn both_engines_answer_alike_and_keep_the_same_rows(rt: HostRuntime) -> Result<(), Fail> {
    for seed in 1..=3 {
        play(&rt, rt.alloc(), seed, 150)?;
    }
    Ok(())
}
