//! The ledger in use after its migration.

ghost use Rattle.store.specs.Stores.{IsUsable};

use super::fixture::DIGEST;
use crate::tests::works::{Looking, Sending};
use chain::BatchReply;
use records::PendingState;
use samples::transfer;
use sqlite_disk::Disk;
use std::alloc::Global;
use std::process::Abort;
use std::test::Fail;
use store::Store;

/// The transfer has expired, and the ledger goes on behind its clock: a transfer of 10 from account
/// 1 to account 2 is taken.
pub fn goes_on<D: Disk + Drop>(
    rt: &impl Abort,
    alloc: Global,
    store: &mut Store<D>,
) -> Result<(), Fail>
    requires { IsUsable store.old }
{
    let seen = store.in_batch(&DIGEST, Looking { account: 1 })?;
    let expired = Some(PendingState::Expired);
    assert_eq!(rt; seen, (Some([0; 4]), expired, 1_000_000_005));
    let sending = Sending {
        alloc,
        transfers: &[transfer(102, (1, 2), 10)],
        moment: 0,
    };
    let BatchReply::Done { clock, results } = store.in_batch(&DIGEST, sending)? else {
        return Err("the clock is exhausted".into());
    };
    let [told] = results.as_slice() else {
        return Err("not one result".into());
    };
    let told = (clock, told.result.number(), told.timestamp);
    assert_eq!(rt; told, (1_000_000_006, 0, 1_000_000_006));
    Ok(())
}
