use super::sample::{
    KEY, is_of_reading, is_read_whole, message, reader_of, refusal_of, refusal_read, refused,
    request_of,
};
use crate::tests::asserting::holds;
use ledger_http::{Message, Refusal, read_message};
use std::alloc::AllocError;

// Whether what is refused while it is read is told so, and all else is read whole.
fn is_told(rt: &impl AllocGlobal, bytes: &[u8], refusal: Refusal) -> bool {
    for piece in [1, 2, 7, 4096] {
        let is_right = if is_of_reading(refusal) {
            refusal_read(rt, bytes, piece) == Some(refusal)
        } else {
            is_read_whole(rt, bytes, piece)
        };
        if !is_right {
            return false;
        }
    }
    true
}

#[test]
fn refuses_what_is_no_message(rt: HostRuntime) -> Result<(), AllocError> {
    for (line, headers, body, refusal) in refused() {
        let text = message(&rt, line, headers, body)?;
        holds(&rt, text.as_str(), is_told(&rt, text.as_bytes(), *refusal));
    }
    Ok(())
}

// Whether reading and asking both refuse the front of the bytes.
fn is_front_refused(rt: &impl AllocGlobal, bytes: &[u8], size: usize, refusal: Refusal) -> bool {
    let front = &bytes[..size.min(bytes.len())];
    is_told(rt, front, refusal) && refusal_of(rt, front) == Some(refusal)
}

#[test]
fn bounds_heads(rt: HostRuntime) -> Result<(), AllocError> {
    let good = request_of(&rt, 16_384)?;
    assert!(rt; good.len() == 16_386 && is_read_whole(&rt, &good, 7));
    assert!(rt; refusal_of(&rt, &good) == Some(Refusal::UnknownKey));
    let long = request_of(&rt, 16_385)?;
    assert!(rt; long.len() == 16_387);
    assert!(rt; is_front_refused(&rt, &long, 16_387, Refusal::HeadTooLarge));
    assert!(rt; is_front_refused(&rt, &long, 16_384, Refusal::HeadTooLarge));
    assert!(rt; is_front_refused(&rt, &long, 16_383, Refusal::Truncated));
    Ok(())
}

#[test]
fn bounds_headers(rt: HostRuntime) -> Result<(), AllocError> {
    for (count, want) in [(64, None), (65, Some(Refusal::BadHead))] {
        let mut headers = String::from_str(rt.alloc(), KEY)?;
        for _ in 1..count {
            headers.push_str("a:\r\n")?;
        }
        let text = message(&rt, "GET /statement/1", &headers, "")?;
        holds(&rt, count, refusal_of(&rt, text.as_bytes()) == want);
    }
    Ok(())
}

// What three messages in turn are, by their lengths: whole, whole, and one that is refused.
fn read_three(
    rt: &impl AllocGlobal,
    bytes: &[u8],
    piece: usize,
) -> Option<(usize, usize, Refusal)> {
    let mut reader = reader_of(bytes, piece, false);
    let Ok(Message::Whole(first)) = read_message(rt.alloc(), &mut reader) else {
        return None;
    };
    let Ok(Message::Whole(second)) = read_message(rt.alloc(), &mut reader) else {
        return None;
    };
    let Ok(Message::Refused(refusal)) = read_message(rt.alloc(), &mut reader) else {
        return None;
    };
    Some((first.len(), second.len(), refusal))
}

#[test]
fn reads_one_message_after_the_other(rt: HostRuntime) {
    // A stray line end belongs to the message behind it, and at the end it begins one.
    let bytes =
        b"POST / HTTP/1.1\r\ncontent-length: 5\r\n\r\n\r\n\r\na\r\nGET / HTTP/1.1\r\n\r\n\r\n";
    for piece in [1, 2, 7, 4096] {
        assert!(rt; read_three(&rt, bytes, piece) == Some((43, 20, Refusal::Truncated)));
    }
}

#[test]
fn tells_an_end_from_a_failing_reader(rt: HostRuntime) {
    let bytes = b"POST /accounts HTTP/1.1\r\ncontent-length: 5\r\n\r\n12345";
    for size in 0..bytes.len() {
        let front = &bytes[..size];
        assert!(rt; read_message(rt.alloc(), &mut reader_of(front, 3, true)).is_err());
        assert!(rt; size == 0 || refusal_read(&rt, front, 3) == Some(Refusal::Truncated));
    }
    let none = read_message(rt.alloc(), &mut reader_of(b"", 1, false));
    assert!(rt; matches!(none, Ok(Message::End)));
}
