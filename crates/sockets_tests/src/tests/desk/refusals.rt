//! What is refused.
use super::scene::is_refused;
use super::steps::Step::{Begins, Hears, IsBusy, Orders, Sends, SendsMany, Shuts};
use super::steps::{Step, play};
use control::Desk;
use std::test::Fail;

// Messages, the status of the reply, and the word in it.
const REFUSED: [(&str, &str, &str); 18] = [
    ("GET / HTTP/1.1\r\n\r\n", "404 Not Found", "no_route"),
    ("GET /control HTTP/1.1\r\n\r\n", "404 Not Found", "no_route"),
    (
        "GET /control/keys HTTP/1.1\r\n\r\n",
        "405 Method Not Allowed",
        "bad_method",
    ),
    (
        "PUT /control/tenants HTTP/1.1\r\ncontent-length: 0\r\n\r\n",
        "405 Method Not Allowed",
        "bad_method",
    ),
    (
        "POST /control/stop HTTP/1.1\r\n\r\n",
        "400 Bad Request",
        "bad_request",
    ),
    (
        "GET /control/status\r\n\r\n",
        "400 Bad Request",
        "bad_request",
    ),
    (
        "POST /control/keys HTTP/1.1\r\ncontent-length: 12\r\n\r\n{\"name\":\"n\"}",
        "400 Bad Request",
        "bad_request",
    ),
    (
        "POST /control/keys HTTP/1.1\r\ncontent-length: 20\r\n\r\n{\"name\":\"n\",\"key\":1}",
        "400 Bad Request",
        "bad_request",
    ),
    (
        "POST /control/keys HTTP/1.1\r\ncontent-length: 30\r\n\r\n\
        {\"name\":\"n\",\"key\":\"0\",\"more\":0}",
        "400 Bad Request",
        "bad_request",
    ),
    (
        "POST /control/keys HTTP/1.1\r\ncontent-length: 4\r\n\r\nname",
        "400 Bad Request",
        "bad_request",
    ),
    (
        "POST /control/tenants HTTP/1.1\r\ncontent-length: 22\r\n\r\n{\"name\":\"\",\"key\":\"00\"}",
        "400 Bad Request",
        "bad_name",
    ),
    (
        "POST /control/tenants HTTP/1.1\r\ncontent-length: 23\r\n\r\n{\"name\":\"n\",\"key\":\"00\"}",
        "400 Bad Request",
        "bad_key",
    ),
    (
        "GET /control/copy HTTP/1.1\r\n\r\n",
        "405 Method Not Allowed",
        "bad_method",
    ),
    (
        "POST /control/copy HTTP/1.1\r\ncontent-length: 15\r\n\r\n{\"to\":\"a/b.db\"}",
        "400 Bad Request",
        "bad_request",
    ),
    (
        "POST /control/copy HTTP/1.1\r\ncontent-length: 9\r\n\r\n{\"to\":\"\"}",
        "400 Bad Request",
        "bad_request",
    ),
    (
        "POST /control/copy HTTP/1.1\r\ncontent-length: 8\r\n\r\n{\"to\":1}",
        "400 Bad Request",
        "bad_request",
    ),
    (
        "POST /control/copy HTTP/1.1\r\ncontent-length: 20\r\n\r\n{\"to\":\"/a\",\"more\":0}",
        "400 Bad Request",
        "bad_request",
    ),
    (
        "POST /control/copy HTTP/1.1\r\ncontent-length: 15\r\n\r\n{\"copied\":\"/a\"}",
        "400 Bad Request",
        "bad_request",
    ),
];

#[test]
fn refuses_what_is_no_call(rt: HostRuntime) -> Result<(), Fail> {
    let path = "refused.control";
    let mut desk = Desk::open(&rt, path)?;
    for (message, status, word) in REFUSED {
        if !is_refused(&rt, path, &mut desk, message, status, word)? || desk.is_busy() {
            return Err(Fail::new(format_args!("of {message}")));
        }
    }
    desk.close(&rt);
    Ok(())
}

const WITHOUT_END: &str = "GET /control/status HTTP/1.1\r\nx: ";

const LONG_BODY: &str = "POST /control/keys HTTP/1.1\r\ncontent-length: 20000\r\n\r\n";

// A message that is longer than sixteen kilobytes, with no end of its head or of its body.
const LONG: [Step; 14] = [
    Sends(WITHOUT_END),
    Orders(1, None),
    IsBusy(true),
    SendsMany(0, 17_000),
    Orders(1, None),
    IsBusy(false),
    Begins(0, "HTTP/1.1 400 "),
    Sends(LONG_BODY),
    Orders(1, None),
    IsBusy(true),
    SendsMany(1, 17_000),
    Orders(1, None),
    IsBusy(false),
    Begins(1, "HTTP/1.1 400 "),
];

// Who ends in the middle of a message is told so, and who ends before it is let go.
const CUT: [Step; 8] = [
    Sends("GET /control/st"),
    Shuts(0),
    Sends(""),
    Shuts(1),
    Orders(1, None),
    IsBusy(false),
    Begins(0, "HTTP/1.1 400 "),
    Hears(1, ""),
];

#[test]
fn refuses_long_messages_and_those_that_are_cut(rt: HostRuntime) -> Result<(), Fail> {
    play(&rt, "long.control", &LONG, &[])?;
    play(&rt, "middle.control", &CUT, &[])
}
