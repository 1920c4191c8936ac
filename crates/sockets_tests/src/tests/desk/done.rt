//! What a body tells that was done.
use command_texts::{Fault, name};
use control::{added_body, added_in, changed_body, changed_in, stopped_in};
use std::test::Fail;

// What a service tells of a tenant is what a command looks for, and no other name is.
#[test]
fn reads_which_tenant_was_added(rt: HostRuntime) -> Result<(), Fail> {
    let one = name("one")?;
    let two = name("two")?;
    let body = added_body(rt.alloc(), &one)?;
    assert_eq!(rt; added_in(rt.alloc(), body.as_slice(), &one), Ok(()));
    assert_eq!(rt;
        added_in(rt.alloc(), body.as_slice(), &two),
        Err(Fault::Unavailable)
    );
    let body = changed_body(rt.alloc(), &one)?;
    assert_eq!(rt; changed_in(rt.alloc(), body.as_slice(), &one), Ok(()));
    assert_eq!(rt;
        added_in(rt.alloc(), body.as_slice(), &one),
        Err(Fault::Unavailable)
    );
    Ok(())
}

const NOT_ADDED: [&str; 5] = [
    "",
    "{}",
    "{\"added\":true}",
    "{\"changed\":\"one\"}",
    "{\"added\":\"One\"}",
];

// Where a body tells nothing of it, it is not known whether it was done.
#[test]
fn takes_no_other_body_for_an_adding(rt: HostRuntime) -> Result<(), Fail> {
    let one = name("one")?;
    for body in NOT_ADDED {
        let told = added_in(rt.alloc(), body.as_bytes(), &one);
        assert_eq!(rt; told, Err(Fault::Unavailable), "of {body}");
    }
    Ok(())
}

// What a body tells of the end of a service.
#[test]
fn reads_whether_a_service_has_ended(rt: HostRuntime) -> Result<(), Fail> {
    assert_eq!(rt; stopped_in(rt.alloc(), b"{\"stopped\":true}"), Ok(()));
    for body in ["", "{}", "{\"stopped\":false}", "{\"stopped\":\"true\"}"] {
        let told = stopped_in(rt.alloc(), body.as_bytes());
        assert_eq!(rt; told, Err(Fault::Unavailable), "of {body}");
    }
    Ok(())
}
