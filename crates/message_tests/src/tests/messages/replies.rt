use crate::tests::asserting::holds;
use failing_streams::Narrow;
use ledger_http::{ContentType, Early, Refusal, Reply, Text, put_chunk, write_reply};
use records::Streamed;
use std::alloc::AllocError;

// Each refusal with its status line, the length of its body and its name.
const ROWS: [(Refusal, &str, u8, &str); 15] = [
    (Refusal::BadHead, "400 Bad Request", 20, "bad_head"),
    (
        Refusal::HeadTooLarge,
        "431 Request Header Fields Too Large",
        26,
        "head_too_large",
    ),
    (
        Refusal::LengthRequired,
        "411 Length Required",
        27,
        "length_required",
    ),
    (
        Refusal::BodyTooLarge,
        "413 Payload Too Large",
        26,
        "body_too_large",
    ),
    (Refusal::Truncated, "400 Bad Request", 21, "truncated"),
    (Refusal::NoRoute, "404 Not Found", 20, "no_route"),
    (
        Refusal::BadMethod,
        "405 Method Not Allowed",
        22,
        "bad_method",
    ),
    (Refusal::UnknownKey, "401 Unauthorized", 23, "unknown_key"),
    (Refusal::BodyNotJson, "400 Bad Request", 25, "body_not_json"),
    (Refusal::BadField, "400 Bad Request", 21, "bad_field"),
    (
        Refusal::TooManyEvents,
        "413 Payload Too Large",
        27,
        "too_many_events",
    ),
    (Refusal::NoAccount, "404 Not Found", 22, "no_account"),
    (Refusal::NoHistory, "409 Conflict", 22, "no_history"),
    (
        Refusal::ClockExhausted,
        "503 Service Unavailable",
        27,
        "clock_exhausted",
    ),
    (
        Refusal::Unavailable,
        "503 Service Unavailable",
        23,
        "unavailable",
    ),
];

fn refusal_text(
    rt: &impl AllocGlobal,
    status: &str,
    length: u8,
    name: &str,
) -> Result<String, AllocError> {
    format!(in rt.alloc();
        "HTTP/1.1 {status}\r\ncontent-length: {length}\r\ncontent-type: application/json\r\n\r\n\
         {{\"error\":\"{name}\"}}"
    )
}

fn is_replied(
    rt: &impl AllocGlobal,
    refusal: Refusal,
    status: &str,
    length: u8,
    name: &str,
) -> Result<bool, AllocError> {
    let want = refusal_text(rt, status, length, name)?;
    Ok(Reply::Fixed(refusal).bytes() == want.as_bytes() && refusal.name() == name)
}

#[test]
fn has_constant_replies(rt: HostRuntime) -> Result<(), AllocError> {
    for (refusal, status, length, name) in ROWS {
        holds(&rt, name, is_replied(&rt, refusal, status, length, name)?);
    }
    assert_eq!(rt; Refusal::HeadTooLarge.status().as_u16(), 431);
    Ok(())
}

#[test]
fn tells_the_page_as_html(rt: HostRuntime) {
    let reply = Reply::from(Early::Page);
    let bytes = reply.bytes();
    let front = b"HTTP/1.1 200 OK\r\ncontent-length: ";
    assert!(rt; bytes.starts_with(front));
    let page = b"\r\n\r\n<!doctype html>\n<html lang=\"en\">\n";
    assert!(rt;
        bytes
            .windows(page.len())
            .any(|part| part == page.as_slice())
    );
    assert!(rt; bytes.ends_with(b"</html>\n"));
}

#[test]
fn tells_health_by_a_constant(rt: HostRuntime) {
    let reply = Reply::from(Early::Health);
    let front = b"HTTP/1.1 200 OK\r\ncontent-length: 16\r\ncontent-type: application/json\r\n\r\n";
    assert!(rt; reply.bytes().starts_with(front));
    assert!(rt; &reply.bytes()[front.len()..] == b"{\"serving\":true}".as_slice());
}

#[test]
fn tells_early_refusals(rt: HostRuntime) {
    let reply = Reply::from(Early::Refused(Refusal::NoRoute));
    assert!(rt; reply.bytes() == Reply::Fixed(Refusal::NoRoute).bytes());
}

// The reply with room for so many bytes is written as far as it goes, and told so.
fn is_written(rt: &impl AllocGlobal, reply: &Reply, room: usize) -> bool {
    let mut writer = Streamed::new(Narrow {
        taken: Vec::new(rt.alloc()),
        piece: 3,
        room,
        fails: true,
    });
    let result = write_reply(&mut writer, reply);
    let Narrow { taken, .. } = writer.into_inner();
    let bytes = reply.bytes();
    let fits = bytes.len() <= room;
    result.is_ok() == fits && taken.as_slice() == &bytes[..room.min(bytes.len())]
}

#[test]
fn writes_replies_or_a_beginning(rt: HostRuntime) -> Result<(), AllocError> {
    let json = b"HTTP/1.1 200 OK\r\ncontent-length: 2\r\ncontent-type: application/json\r\n\r\n{}";
    let reply = Reply::of_body(rt.alloc(), ContentType::Json, b"{}")?;
    assert!(rt; reply.bytes() == json.as_slice());
    let csv = b"HTTP/1.1 200 OK\r\ncontent-length: 3\r\ncontent-type: text/csv\r\n\r\na\n1";
    let reply = Reply::of_body(rt.alloc(), ContentType::Csv, b"a\n1")?;
    assert!(rt; reply.bytes() == csv.as_slice());
    for room in 0..70 {
        holds(&rt, room, is_written(&rt, &reply, room));
    }
    Ok(())
}

/// Bytes, and the chunk that has them (RFC 9112, 7.1): their number in hexadecimal digits, a line
/// end, the bytes and a line end. That of no bytes is the last.
const CHUNKS: [(&str, &str); 6] = [
    ("", "0\r\n\r\n"),
    ("\n", "1\r\n\n\r\n"),
    ("0\r\n\r\n", "5\r\n0\r\n\r\n\r\n"),
    ("ten bytes.", "a\r\nten bytes.\r\n"),
    ("sixteen of bytes", "10\r\nsixteen of bytes\r\n"),
    (
        "thirty-one bytes, and not more.",
        "1f\r\nthirty-one bytes, and not more.\r\n",
    ),
];

#[test]
fn puts_chunks_behind_others(rt: HostRuntime) -> Result<(), AllocError> {
    let mut all = Vec::new(rt.alloc());
    let mut want = Vec::new(rt.alloc());
    for (bytes, chunk) in CHUNKS {
        put_chunk(rt.alloc(), &mut all, bytes.as_bytes())?;
        want.extend_from_slice(chunk.as_bytes())?;
        holds(&rt, chunk, all.as_slice() == want.as_slice());
    }
    Ok(())
}

#[test]
fn replies_in_chunks(rt: HostRuntime) -> Result<(), AllocError> {
    let chunks = b"4\r\na\n1\n\r\n0\r\n\r\n";
    let csv = b"HTTP/1.1 200 OK\r\ncontent-type: text/csv\r\ntransfer-encoding: chunked\r\n\r\n\
        4\r\na\n1\n\r\n0\r\n\r\n";
    let reply = Reply::of_chunks(rt.alloc(), ContentType::Csv, chunks)?;
    assert!(rt; reply.bytes() == csv.as_slice());
    let json =
        b"HTTP/1.1 200 OK\r\ncontent-type: application/json\r\ntransfer-encoding: chunked\r\n\r\n";
    let reply = Reply::of_chunks(rt.alloc(), ContentType::Json, b"")?;
    assert!(rt; reply.bytes() == json.as_slice());
    Ok(())
}

#[test]
fn keeps_the_bytes_of_a_text(rt: HostRuntime) -> Result<(), AllocError> {
    let text = Text::from(b"a\n1".to_vec(rt.alloc())?);
    assert!(rt; text.as_slice() == b"a\n1".as_slice());
    assert!(rt; text.into_vec().as_slice() == b"a\n1".as_slice());
    let text = Text::from(b"0\r\n\r\n".to_vec(rt.alloc())?);
    assert!(rt; Reply::Whole(text).bytes() == b"0\r\n\r\n".as_slice());
    Ok(())
}
