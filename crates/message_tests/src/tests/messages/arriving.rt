use super::sample::{is_of_reading, message, reader_of, refused, request_of};
use crate::tests::asserting::holds;
use ledger_http::{Inbox, Message, Next, Refusal, read_message};
use std::alloc::AllocError;

// The messages in some bytes, one behind the other, how long each is, and what stands behind them.
#[derive(Drop)]
struct Arrived {
    messages: Vec<u8>,
    sizes: Vec<usize>,
    end: Next,
}

impl Arrived {
    fn new(rt: &impl AllocGlobal) -> Arrived {
        Arrived {
            messages: Vec::new(rt.alloc()),
            sizes: Vec::new(rt.alloc()),
            end: Next::Wanting,
        }
    }

    fn add(&mut self, message: &[u8]) -> Result<(), AllocError> {
        self.messages.extend_from_slice(message)?;
        Ok(self.sizes.push(message.len())?)
    }

    fn is_same(&self, other: &Arrived) -> bool {
        self.messages.as_slice() == other.messages.as_slice()
            && self.sizes.as_slice() == other.sizes.as_slice()
            && self.end == other.end
    }
}

// Takes the messages that have come.
fn take_all(inbox: &mut Inbox, arrived: &mut Arrived) -> Result<(), AllocError> {
    for _ in 0..u8::MAX {
        let next = inbox.next();
        arrived.end = next;
        let Next::Whole(size) = next else {
            break;
        };
        arrived.add(inbox.front(size))?;
        inbox.take(size);
    }
    Ok(())
}

// Puts bytes into an inbox in pieces, and takes each message once it is there.
fn receive_all(
    inbox: &mut Inbox,
    bytes: &[u8],
    piece: usize,
    arrived: &mut Arrived,
) -> Result<(), AllocError> {
    for part in bytes.chunks(piece.max(1)) {
        if !inbox.has_ended() {
            inbox.receive(part)?;
        }
        take_all(inbox, arrived)?;
    }
    Ok(())
}

// What comes of two parts of an input, each in pieces.
fn arrived_of(
    rt: &impl AllocGlobal,
    first: &[u8],
    second: &[u8],
    piece: usize,
) -> Result<Arrived, AllocError> {
    let mut inbox = Inbox::new(rt.alloc());
    let mut arrived = Arrived::new(rt);
    receive_all(&mut inbox, first, piece, &mut arrived)?;
    receive_all(&mut inbox, second, piece, &mut arrived)?;
    inbox.end();
    take_all(&mut inbox, &mut arrived)?;
    Ok(arrived)
}

// What readers give of the same bytes, each from the end of the last message on.
fn read_all(rt: &impl AllocGlobal, bytes: &[u8]) -> Result<Arrived, AllocError> {
    let mut arrived = Arrived::new(rt);
    for _ in 0..u8::MAX {
        let rest = bytes.get(arrived.messages.len()..).unwrap_or(&[]);
        arrived.end = match read_message(rt.alloc(), &mut reader_of(rest, 4096, false)) {
            Ok(Message::Whole(message)) => {
                arrived.add(&message)?;
                continue;
            }
            Ok(Message::End) => Next::End,
            Ok(Message::Refused(refusal)) => Next::Refused(refusal),
            Ok(Message::NoMemory) | Err(_) => Next::Wanting,
        };
        break;
    }
    Ok(arrived)
}

// A stray line end belongs to the message behind it, and at the end it begins one.
const THREE: &[u8] =
    b"POST / HTTP/1.1\r\ncontent-length: 5\r\n\r\n\r\n\r\na\r\nGET / HTTP/1.1\r\n\r\n\r\n";

#[test]
fn gives_one_message_after_the_other(rt: HostRuntime) -> Result<(), AllocError> {
    for piece in [1, 2, 7, 4096] {
        let arrived = arrived_of(&rt, THREE, b"", piece)?;
        assert!(rt; arrived.messages.as_slice() == &THREE[..63]);
        assert!(rt; arrived.sizes.as_slice() == [43, 20].as_slice());
        assert!(rt; arrived.end == Next::Refused(Refusal::Truncated));
    }
    Ok(())
}

#[test]
fn gives_the_same_wherever_the_bytes_are_cut(rt: HostRuntime) -> Result<(), AllocError> {
    for bytes in [
        THREE,
        &THREE[..63],
        &THREE[..50],
        b"GET /\r\n\r\nGET / HTTP/1.1\r\n\r\n",
    ] {
        let read = read_all(&rt, bytes)?;
        for cut in 0..bytes.len() {
            let (first, second) = bytes.split_at(cut);
            assert!(rt; arrived_of(&rt, first, second, 4096)?.is_same(&read));
            assert!(rt; arrived_of(&rt, first, second, 3)?.is_same(&read));
        }
    }
    Ok(())
}

#[test]
fn wants_more_until_the_input_ends(rt: HostRuntime) -> Result<(), AllocError> {
    let mut inbox = Inbox::new(rt.alloc());
    assert!(rt; inbox.next() == Next::Wanting);
    inbox.receive(b"GET / HT")?;
    assert!(rt; inbox.next() == Next::Wanting);
    assert!(rt; !inbox.has_ended());
    inbox.end();
    assert!(rt; inbox.has_ended());
    assert!(rt; inbox.next() == Next::Refused(Refusal::Truncated));
    let mut empty = Inbox::new(rt.alloc());
    empty.end();
    assert!(rt; empty.next() == Next::End);
    Ok(())
}

#[test]
fn announces_a_body_behind_a_good_head(rt: HostRuntime) -> Result<(), AllocError> {
    let mut inbox = Inbox::new(rt.alloc());
    inbox.receive(b"POST / HTTP/1.1\r\ncontent-length: 5\r\n\r")?;
    assert!(rt; inbox.next() == Next::Wanting && !inbox.is_announced());
    assert!(rt; inbox.announced_length() == None && inbox.reserve_due(9)? == 9);
    inbox.receive(b"\n1234")?;
    assert!(rt; inbox.next() == Next::Wanting && inbox.is_announced());
    assert!(rt; inbox.announced_length() == Some(43) && inbox.reserve_due(9)? == 1);
    inbox.receive(b"5GET")?;
    assert!(rt; inbox.next() == Next::Whole(43));
    Ok(())
}

// What stands first where all of the bytes have come, in pieces, and then at the end of the input.
fn first_of(rt: &impl AllocGlobal, bytes: &[u8], piece: usize) -> Result<(Next, Next), AllocError> {
    let mut inbox = Inbox::new(rt.alloc());
    let mut open = Next::Wanting;
    for part in bytes.chunks(piece.max(1)) {
        if !inbox.has_ended() {
            inbox.receive(part)?;
        }
        open = inbox.next();
    }
    inbox.end();
    Ok((open, inbox.next()))
}

// What is refused while it is read is told so, as soon as it can be, and all else is whole.
#[test]
fn refuses_what_is_no_message(rt: HostRuntime) -> Result<(), AllocError> {
    for (line, headers, body, refusal) in refused() {
        let text = message(&rt, line, headers, body)?;
        let size = text.len();
        let (open, ended) = if *refusal == Refusal::Truncated {
            (Next::Wanting, Next::Refused(*refusal))
        } else if is_of_reading(*refusal) {
            (Next::Refused(*refusal), Next::Refused(*refusal))
        } else {
            (Next::Whole(size), Next::Whole(size))
        };
        for piece in [1, 4096] {
            let told = first_of(&rt, text.as_bytes(), piece)?;
            holds(&rt, text.as_str(), told == (open, ended));
        }
    }
    Ok(())
}

#[test]
fn bounds_heads(rt: HostRuntime) -> Result<(), AllocError> {
    let good = request_of(&rt, 16_384)?;
    assert!(rt; first_of(&rt, &good, 1)?.0 == Next::Whole(16_386));
    let long = request_of(&rt, 16_385)?;
    let refused = Next::Refused(Refusal::HeadTooLarge);
    assert!(rt; first_of(&rt, &long, 7)?.0 == refused);
    assert!(rt; first_of(&rt, &long[..16_384.min(long.len())], 7)?.0 == refused);
    assert!(rt; first_of(&rt, &long[..16_383.min(long.len())], 7)?.0 == Next::Wanting);
    Ok(())
}

#[test]
fn takes_a_body_of_the_greatest_length(rt: HostRuntime) -> Result<(), AllocError> {
    let head = b"POST /accounts HTTP/1.1\r\ncontent-length: 2097152\r\n\r\n";
    let part = [b'x'; 65_536];
    let mut inbox = Inbox::new(rt.alloc());
    inbox.receive(head)?;
    for _ in 0..32 {
        assert!(rt; inbox.next() == Next::Wanting);
        if !inbox.has_ended() {
            inbox.receive(&part)?;
        }
    }
    assert!(rt; inbox.next() == Next::Whole(head.len() + 2_097_152));
    Ok(())
}
