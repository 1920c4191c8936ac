//! Bodies that are nested as deep as they may be, and deeper.
use super::reading::{POSTS, refuses};
use ledger_http::Refusal;
use std::test::Fail;

#[test]
fn refuses_deep_bodies(rt: HostRuntime) -> Result<(), Fail> {
    for (levels, refusal) in [
        (127_usize, Refusal::BadField),
        (128, Refusal::BodyNotJson),
        (100_000, Refusal::BodyNotJson),
    ] {
        let mut deep = Vec::from_elem(rt.alloc(), b'[', levels)?;
        deep.resize(levels.saturating_mul(2), b']')?;
        for route in POSTS {
            refuses(&rt, route, &[&deep], refusal);
        }
    }
    Ok(())
}
