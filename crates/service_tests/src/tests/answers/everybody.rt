//! What everybody is told, whatever its key.
use super::scripts::{Answers, base};
use crate::tests::asserting::same;
use crate::tests::firms::Firms;
use std::alloc::Global;
use std::process::Abort;
use std::test::Fail;

/// All of these texts are told the same.
pub(crate) fn are_all_told<A: Answers>(
    rt: &impl Abort,
    alloc: Global,
    firms: &mut A,
    (asked, moment): (&[&'static str], u64),
    want: &[u8],
) {
    for text in asked {
        let reply = firms.answer(alloc, text.as_bytes(), moment);
        same(rt, text, reply.bytes(), want);
    }
}

/// They are told the same by no firm and by one that has accounts, of which nothing changes.
pub(crate) fn everybody_is_told(
    rt: &impl Abort,
    alloc: Global,
    asked: &[&'static str],
    want: &[u8],
) -> Result<(), Fail> {
    are_all_told(rt, alloc, &mut Firms::new(alloc), (asked, 0), want);
    let mut firms = base(rt, alloc)?;
    are_all_told(rt, alloc, &mut firms, (asked, 9), want);
    firms.play(rt, r#"North transfers => {"clock":"4","results":[]}"#)
}
