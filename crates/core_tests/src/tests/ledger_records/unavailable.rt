use crate::tests::asserting::displays;
use records::Unavailable;
use std::alloc::AllocError;

#[test]
fn prints_why_a_ledger_is_unavailable(rt: HostRuntime) -> Result<(), AllocError> {
    for (why, text) in [
        (Unavailable::Memory, "out of memory"),
        (Unavailable::Size, "the store is full"),
        (Unavailable::Disk, "the disk failed"),
    ] {
        displays(&rt, rt.alloc(), &why, text)?;
    }
    Ok(())
}
