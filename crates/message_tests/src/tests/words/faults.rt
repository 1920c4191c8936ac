//! What faults are told by.
use crate::tests::asserting::holds;
use command_texts::{Fault, tell_fault, tell_fault_for, tell_new_ledger};
use records::Streamed;
use std::test::Fail;

const FAULTS: [(Fault, &str, u8); 24] = [
    (Fault::NameTaken, "ledgerd: name_taken\n", 1),
    (Fault::DigestTaken, "ledgerd: digest_taken\n", 1),
    (Fault::NoTenant, "ledgerd: no_tenant\n", 1),
    (Fault::NoAccount, "ledgerd: no_account\n", 1),
    (Fault::NotServed, "ledgerd: not_served\n", 1),
    (Fault::Exists, "ledgerd: exists\n", 1),
    (Fault::BadName, "ledgerd: bad_name\n", 2),
    (Fault::BadKey, "ledgerd: bad_key\n", 2),
    (Fault::BadAccount, "ledgerd: bad_account\n", 2),
    (Fault::BadVersion, "ledgerd: bad_version\n", 2),
    (Fault::BadTime, "ledgerd: bad_time\n", 2),
    (Fault::BadFormat, "ledgerd: bad_format\n", 2),
    (Fault::BadAddress, "ledgerd: bad_address\n", 2),
    (Fault::BadRoute, "ledgerd: bad_route\n", 2),
    (Fault::Unavailable, "ledgerd: unavailable\n", 3),
    (Fault::Socket, "ledgerd: socket\n", 3),
    (Fault::Output, "ledgerd: output\n", 3),
    (Fault::Unreadable, "ledgerd: unreadable\n", 4),
    (Fault::NotALedger, "ledgerd: not_a_ledger\n", 4),
    (Fault::OldSchema, "ledgerd: old_schema\n", 4),
    (Fault::NewerSchema, "ledgerd: newer_schema\n", 4),
    (Fault::Damaged, "ledgerd: damaged\n", 4),
    (Fault::Behind, "ledgerd: behind\n", 4),
    (Fault::InUse, "ledgerd: in_use\n", 5),
];

// Whether a fault is told by a line and a status, and its word in that line tells it again.
fn is_told_by(rt: &HostRuntime, fault: Fault, line: &str, status: u8) -> Result<bool, Fail> {
    let mut err = Streamed::new(Vec::new(rt.alloc()));
    let ends_with = tell_fault(&mut err, fault);
    let told = err.into_inner();
    let named = format!(in rt.alloc(); "ledgerd: {}\n", fault.word())?;
    Ok(
        ends_with == status
            && told.as_slice() == line.as_bytes()
            && named.as_str() == line
            && Fault::of_word(fault.word()) == Some(fault),
    )
}

#[test]
fn tells_each_fault(rt: HostRuntime) -> Result<(), Fail> {
    for (fault, line, status) in FAULTS {
        holds(&rt, line, is_told_by(&rt, fault, line, status)?);
    }
    assert_eq!(rt; Fault::of_word("bad_route "), None);
    Ok(())
}

#[test]
fn tells_a_reason(rt: HostRuntime) {
    let mut err = Streamed::new(Vec::new(rt.alloc()));
    let status = tell_fault_for(rt.alloc(), &mut err, Fault::Unreadable, "Is a directory");
    assert_eq!(rt; status, 4);
    let told = err.into_inner();
    assert_eq!(rt;
        told.as_slice(),
        b"ledgerd: unreadable\nIs a directory\n".as_slice()
    );
}

#[test]
fn tells_a_new_ledger(rt: HostRuntime) {
    let mut err = Streamed::new(Vec::new(rt.alloc()));
    tell_new_ledger(&mut err, "l.db");
    assert_eq!(rt;
        err.into_inner().as_slice(),
        b"new ledger l.db\n".as_slice()
    );
}

// A device that is full.
#[test]
fn a_full_device_keeps_the_status(rt: HostRuntime) {
    let mut room = [0u8; 4];
    let mut err = Streamed::new(room.as_mut_slice());
    assert_eq!(rt; tell_fault(&mut err, Fault::NoAccount), 1);
}
