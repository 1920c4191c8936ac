//! The console's page, which everybody is told.
use super::everybody::everybody_is_told;
use crate::tests::asserting::same;
use ledger_http::Reply;
use std::test::Fail;

/// Requests of the page: without a key, with a firm's key, with keys of nobody, and behind which
/// another message stands.
const ASKED: [&str; 4] = [
    "GET / HTTP/1.1\r\nhost: 127.0.0.1:8080\r\n\r\n",
    concat!(
        "GET / HTTP/1.1\r\nx-ledger-key: ",
        "0000000000000000000000000000000000000000000000000000000000000000\r\n\r\n"
    ),
    "GET / HTTP/1.1\r\nx-ledger-key: 1\r\nx-ledger-key: 2\r\n\r\n",
    "GET / HTTP/1.1\r\n\r\nGET /x HTTP/1.1\r\n\r\n",
];

/// What the page begins with.
const FRONT: &str = "<!doctype html>\n<html lang=\"en\">\n";

#[test]
fn begins_as_a_page(rt: HostRuntime) -> Result<(), Fail> {
    let page = Reply::Page.bytes();
    let at = page
        .windows(4)
        .position(|part| part == b"\r\n\r\n".as_slice());
    let body = &page[at.ok_or("no head")? + 4..];
    same(&rt, "its front", body.starts_with(FRONT.as_bytes()), true);
    Ok(())
}

#[test]
fn tells_the_page_to_everybody(rt: HostRuntime) -> Result<(), Fail> {
    everybody_is_told(&rt, rt.alloc(), &ASKED, Reply::Page.bytes())
}
