use crate::tests::asserting::{debugs, same};
use std::test::Fail;
use tenants::TenantName;

#[test]
fn reads_names_back(rt: HostRuntime) -> Result<(), Fail> {
    for text in [
        "a",
        "Z",
        "7",
        "-",
        "North-2",
        "abcdefghijklmnopqrstuvwxyz-ABCDEFGHIJKLMNOPQRSTUVWXYZ-0123456789",
    ] {
        let name = TenantName::read(text).ok_or("refused")?;
        same(&rt, text, name.as_str(), text);
    }
    Ok(())
}

#[test]
fn refuses_other_texts(rt: HostRuntime) {
    for text in [
        "",
        "abcdefghijklmnopqrstuvwxyz-ABCDEFGHIJKLMNOPQRSTUVWXYZ-01234567890",
        "north_2",
        "north.2",
        "north 2",
        "north\0",
        "nörth",
        "北",
    ] {
        same(&rt, text, TenantName::read(text), None);
    }
}

#[test]
fn tells_names_apart(rt: HostRuntime) -> Result<(), Fail> {
    let name = TenantName::read("north").ok_or("refused")?;
    let copy = name;
    same(&rt, "a copy", copy, name);
    for other in ["North", "north0", "nort", "south"] {
        let is_same = TenantName::read(other) == Some(name);
        same(&rt, other, is_same, false);
    }
    debugs(&rt, rt.alloc(), &name, "TenantName(\"north\")")?;
    Ok(())
}
