//! How a desk begins and ends.
use super::scene::reads_as;
use super::steps::Step::{Answers, Calls, Hears, Orders, Sends, Tells};
use super::steps::{Step, play};
use command_texts::Fault;
use control::{Call, Desk, call};
use std::fs;
use std::os::unix::fs::PermissionsExt;
use std::test::Fail;

// Whether nobody listens at a path.
fn is_nobody_there(rt: &HostRuntime, path: &str) -> bool {
    matches!(call(rt, rt.alloc(), path, &Call::Status), Ok(None))
}

// Its socket is its owner's alone, and goes with it.
#[test]
fn removes_its_socket(rt: HostRuntime) -> Result<(), Fail> {
    let path = "mode.control";
    let desk = Desk::open(&rt, path)?;
    let mode = fs::metadata(&rt, path)?.permissions().mode();
    desk.close(&rt);
    assert_eq!(rt; mode & 0o777, 0o600);
    assert!(rt; is_nobody_there(&rt, path) && fs::metadata(&rt, path).is_err());
    Ok(())
}

// Who asks for the end is told of it once it has come, who comes last too; what else is asked then
// is refused, and who has not sent all of a message is let go. Then nobody is there any more.
const STOPS: [Step; 9] = [
    Calls(Call::Stop),
    Sends("GET"),
    Calls(Call::Stop),
    Orders(1, Some(Call::Stop)),
    Orders(2, Some(Call::Stop)),
    Orders(100, None),
    Answers(100, Ok("{}")),
    Calls(Call::Stop),
    Calls(Call::Status),
];

const AT_THE_END: [Step; 5] = [
    Tells(0, Ok("{\"stopped\":true}")),
    Tells(2, Ok("{\"stopped\":true}")),
    Tells(3, Ok("{\"stopped\":true}")),
    Tells(4, Err(Fault::Unavailable)),
    Hears(1, ""),
];

#[test]
fn tells_the_end(rt: HostRuntime) -> Result<(), Fail> {
    let path = "end.control";
    play(&rt, path, &STOPS, &AT_THE_END)?;
    assert!(rt; is_nobody_there(&rt, path) && fs::metadata(&rt, path).is_err());
    Ok(())
}

// A socket that was left is taken over. A desk removes no socket but its own.
#[test]
fn takes_over_what_was_left(rt: HostRuntime) -> Result<(), Fail> {
    let path = "left.control";
    let before = Desk::open(&rt, path)?;
    let desk = Desk::open(&rt, path)?;
    before.close(&rt);
    let is_left = fs::metadata(&rt, path).is_ok();
    drop(desk);
    assert!(rt; is_left && is_nobody_there(&rt, path));
    Desk::open(&rt, path)?.close(&rt);
    Ok(())
}

// A file that is no socket is left alone.
#[test]
fn takes_over_no_other_file(rt: HostRuntime) -> Result<(), Fail> {
    let path = "kept.control";
    fs::write(&rt, path, b"kept")?;
    let is_refused = Desk::open(&rt, path).is_err() && is_nobody_there(&rt, path);
    let kept = fs::read(&rt, path)?;
    fs::remove_file(&rt, path)?;
    assert!(rt; is_refused && kept.as_slice() == b"kept".as_slice());
    Ok(())
}

// Replies, and what they tell.
const TOLD: [(&str, Result<&str, Fault>); 8] = [
    ("HTTP/1.1 200 OK\r\n\r\n{\"a\":1}", Ok("{\"a\":1}")),
    ("HTTP/1.1 200 OK\r\n\r\n{\"a\":1", Err(Fault::Unavailable)),
    ("HTTP/1.1 200 OK\r\nx: ", Err(Fault::Unavailable)),
    ("", Err(Fault::Unavailable)),
    (
        "HTTP/1.1 404 Not Found\r\n\r\n{\"error\":\"no_tenant\"}",
        Err(Fault::NoTenant),
    ),
    (
        "HTTP/1.1 409 Conflict\r\n\r\n{\"error\":\"digest_taken\"}",
        Err(Fault::DigestTaken),
    ),
    (
        "HTTP/1.1 404 Not Found\r\n\r\n{\"error\":\"no_route\"}",
        Err(Fault::Unavailable),
    ),
    (
        "HTTP/1.1 503 Service Unavailable\r\n\r\n{}",
        Err(Fault::Unavailable),
    ),
];

#[test]
fn reads_replies(rt: HostRuntime) {
    for (reply, want) in TOLD {
        assert!(rt; reads_as(&rt, reply.as_bytes(), &want), "of {reply}");
    }
}
