//! Two clients whose messages come in pieces, one between the other's, and what each is written.

use crate::tests::booked::{transfers, with_statement};
use crate::tests::firms::Firms;
use crate::tests::messages::{
    ANNOUNCED, FIRST, LAST_AND_ONE_MORE, OF_FIRST, OF_SECOND, SECOND, TO_LAST, TO_SECOND,
    UNAVAILABLE,
};
use clients::{Answered, Client};
use std::alloc::{AllocError, Global};
use std::test::Fail;

/// A client, what it still sends, and what it was written.
#[derive(Drop)]
struct Talker<'a> {
    client: Client,
    sends: &'a [u8],
    heard: Vec<u8>,
}

impl<'a> Talker<'a> {
    fn new(alloc: Global, sends: &'a [u8]) -> Talker<'a> {
        Talker {
            client: Client::new(alloc),
            sends,
            heard: Vec::new(alloc),
        }
    }

    /// Sends the next piece, or that there is no more.
    fn send(&mut self, piece: usize) -> Result<(), AllocError> {
        let (front, rest) = self.sends.split_at(piece.min(self.sends.len()));
        self.sends = rest;
        if !self.client.has_ended() {
            self.client.receive(front)?;
        }
        if rest.is_empty() {
            self.client.end();
        }
        Ok(())
    }

    /// Takes so many bytes of what is written at most.
    fn hear(&mut self, most: usize) -> Result<(), AllocError> {
        let unsent = self.client.unsent();
        let count = most.min(unsent.len());
        self.heard.extend_from_slice(&unsent[..count])?;
        self.client.wrote(count);
        Ok(())
    }
}

const KEYS: [&str; 2] = [FIRST, SECOND];

// What the first is written who is alone.
fn heard_alone(alloc: Global) -> Result<Vec<u8>, Fail> {
    Ok(Firms::with(alloc, &KEYS)?.serve_alone(OF_FIRST.as_bytes()))
}

// What two are written who send and hear in turns of so many bytes, until both have heard all.
fn heard_in_turns(alloc: Global, piece: usize, most: usize) -> Result<(Vec<u8>, Vec<u8>), Fail> {
    let mut firms = Firms::with(alloc, &KEYS)?;
    let mut one = Talker::new(alloc, OF_FIRST.as_bytes());
    let mut other = Talker::new(alloc, OF_SECOND.as_bytes());
    for _ in 0..4000 {
        one.send(piece)?;
        other.send(piece)?;
        firms.answer_client(&mut one.client);
        firms.answer_client(&mut other.client);
        one.hear(most)?;
        other.hear(most)?;
    }
    Ok((one.heard, other.heard))
}

#[test]
fn writes_each_what_its_own_connection_is_written(rt: HostRuntime) -> Result<(), Fail> {
    let to_first = heard_alone(rt.alloc())?;
    for (piece, most) in [(1, 4096), (2, 1), (7, 3), (4096, 100)] {
        let (first, second) = heard_in_turns(rt.alloc(), piece, most)?;
        assert!(rt; first == to_first && second.as_slice() == TO_SECOND.as_bytes());
    }
    Ok(())
}

// Whether each has one message answered, whose reply it hears.
fn have_a_turn(
    firms: &mut Firms,
    one: &mut Talker,
    other: &mut Talker,
) -> Result<bool, AllocError> {
    let (first, second) = (one.heard.len(), other.heard.len());
    let answers = [
        firms.answer_client(&mut one.client),
        firms.answer_client(&mut other.client),
        firms.answer_client(&mut one.client),
    ];
    one.hear(4096)?;
    other.hear(4096)?;
    let is_heard = first < one.heard.len() && second < other.heard.len();
    Ok(is_heard && answers == [Some(Answered::Replied), Some(Answered::Replied), None])
}

#[test]
fn answers_one_message_of_each_client_a_turn(rt: HostRuntime) -> Result<(), Fail> {
    let to_first = heard_alone(rt.alloc())?;
    let mut firms = Firms::with(rt.alloc(), &KEYS)?;
    let mut one = Talker::new(rt.alloc(), OF_FIRST.as_bytes());
    let mut other = Talker::new(rt.alloc(), OF_SECOND.as_bytes());
    one.send(4096)?;
    other.send(4096)?;
    for _ in 0..3 {
        assert!(rt; have_a_turn(&mut firms, &mut one, &mut other)?);
    }
    let over = firms.answer_client(&mut one.client);
    assert_eq!(rt; over, Some(Answered::Over));
    assert_eq!(rt; firms.answer_client(&mut other.client), None);
    assert!(rt; one.heard == to_first && other.heard.as_slice() == TO_SECOND.as_bytes());
    Ok(())
}

// What is answered behind so many bytes more that are taken.
fn answer_behind(
    firms: &mut Firms,
    talker: &mut Talker,
    most: usize,
) -> Result<Option<Answered>, AllocError> {
    talker.hear(most)?;
    Ok(firms.answer_client(&mut talker.client))
}

#[test]
fn answers_nothing_before_the_reply_is_written(rt: HostRuntime) -> Result<(), Fail> {
    let mut firms = Firms::with(rt.alloc(), &[FIRST])?;
    let mut talker = Talker::new(rt.alloc(), OF_FIRST.as_bytes());
    let before = firms.answer_client(&mut talker.client);
    talker.send(4096)?;
    let first = firms.answer_client(&mut talker.client);
    // A byte of the reply is not taken yet, then it is, and then each whole reply.
    let size = talker.client.unsent().len();
    let answers = [
        before,
        first,
        answer_behind(&mut firms, &mut talker, size - size.min(1))?,
        answer_behind(&mut firms, &mut talker, 1)?,
        answer_behind(&mut firms, &mut talker, 4096)?,
        answer_behind(&mut firms, &mut talker, 4096)?,
    ];
    let replied = Some(Answered::Replied);
    let (wanting, over) = (Some(Answered::Wanting), Some(Answered::Over));
    assert!(rt; answers == [wanting, replied, None, replied, replied, over]);
    assert!(rt; talker.client.goes_on());
    Ok(())
}

// Whether a client that sends and hears in pieces is answered one message, and then none.
fn hears_the_last_alone(alloc: Global, piece: usize, most: usize) -> Result<bool, Fail> {
    let mut firms = Firms::with(alloc, &[FIRST])?;
    let mut talker = Talker::new(alloc, LAST_AND_ONE_MORE.as_bytes());
    for _ in 0..600 {
        talker.send(piece)?;
        firms.answer_client(&mut talker.client);
        talker.hear(most)?;
    }
    let is_last = talker.client.is_written() && !talker.client.goes_on();
    let is_over = firms.answer_client(&mut talker.client) == None;
    Ok(is_last && is_over && talker.heard.as_slice() == TO_LAST.as_bytes())
}

#[test]
fn answers_nothing_behind_a_message_that_closes(rt: HostRuntime) -> Result<(), Fail> {
    for (piece, most) in [(1, 4096), (2, 1), (7, 3), (4096, 100)] {
        assert!(rt; hears_the_last_alone(rt.alloc(), piece, most)?);
    }
    let mut firms = Firms::with(rt.alloc(), &[FIRST])?;
    let alone = firms.serve_alone(LAST_AND_ONE_MORE.as_bytes());
    assert!(rt; alone.as_slice() == TO_LAST.as_bytes());
    Ok(())
}

// A client whose body is announced is told where no memory is for it.
#[test]
fn gives_up_where_memory_is_wanting(rt: HostRuntime) -> Result<(), Fail> {
    let mut firms = Firms::with(rt.alloc(), &[FIRST])?;
    let mut client = Client::new(rt.alloc());
    assert!(rt; !client.is_announced() && client.reserve_due(9)? == 9);
    client.receive(ANNOUNCED.as_bytes())?;
    let wanting = firms.answer_client(&mut client);
    assert_eq!(rt; wanting, Some(Answered::Wanting));
    assert!(rt; client.announced_length() == Some(132) && client.reserve_due(9)? == 5);
    assert!(rt; client.may_answer());
    assert!(rt; client.is_announced());
    client.give_up();
    assert!(rt; client.unsent() == UNAVAILABLE.as_bytes());
    assert!(rt; !client.goes_on() && !client.may_answer());
    Ok(())
}

/// More than a message or a part has.
const ALL: usize = 1_000_000;

// Whether the next message is answered by a whole reply, which is heard.
fn hears_a_reply(firms: &mut Firms, talker: &mut Talker) -> Result<bool, AllocError> {
    let is_replied = firms.answer_client(&mut talker.client) == Some(Answered::Replied);
    let is_whole = talker.client.rest() == None && !talker.client.is_written();
    talker.hear(ALL)?;
    let is_next = talker.client.is_written() && talker.client.may_answer();
    Ok(is_replied && is_whole && is_next)
}

// Hears what is unsent of a statement, and has it go on by the part that is left. Whether no
// message may be answered meanwhile.
fn hears_a_part(firms: &mut Firms, talker: &mut Talker) -> Result<bool, Fail> {
    let has_some = !talker.client.unsent().is_empty();
    talker.hear(ALL)?;
    let is_heard = talker.client.unsent().is_empty() && !talker.client.is_written();
    let waits = !talker.client.may_answer() && firms.answer_client(&mut talker.client) == None;
    let rest = talker.client.rest().ok_or("nothing is left")?;
    let part = firms.part(&rest)?;
    talker.client.put_part(part);
    let waits_on = !talker.client.is_written() && !talker.client.may_answer();
    Ok(has_some && is_heard && waits && waits_on)
}

// Whether a client hears a statement of so many entries in so many parts, between which another one
// has its messages answered.
fn hears_a_statement(alloc: Global, entries: u64, parts: u32) -> Result<bool, Fail> {
    let sends = with_statement(alloc, entries)?;
    let more = transfers(alloc, 2000, 100)?;
    let want = Firms::with(alloc, &[FIRST])?.serve_alone(&sends);
    let mut firms = Firms::with(alloc, &[FIRST])?;
    let mut talker = Talker::new(alloc, &sends);
    talker.send(ALL)?;
    let mut is_right = hears_a_reply(&mut firms, &mut talker)?
        && hears_a_reply(&mut firms, &mut talker)?;
    is_right = is_right && firms.answer_client(&mut talker.client) == Some(Answered::Replied);
    for _ in 1..parts {
        is_right = is_right && hears_a_part(&mut firms, &mut talker)?;
        let mut other = Talker::new(alloc, &more);
        other.send(ALL)?;
        is_right = is_right && hears_a_reply(&mut firms, &mut other)?;
    }
    is_right = is_right && talker.client.rest() == None;
    talker.hear(ALL)?;
    let is_whole = want.starts_with(&talker.heard) && talker.heard.ends_with(b"\r\n0\r\n\r\n");
    Ok(is_right && is_whole && hears_a_reply(&mut firms, &mut talker)?)
}

#[test]
fn answers_nothing_before_the_last_part_is_written(rt: HostRuntime) -> Result<(), Fail> {
    for (entries, parts) in [(499, 1), (500, 2), (1000, 3)] {
        assert!(rt;
            hears_a_statement(rt.alloc(), entries, parts)?,
            "{entries} entries"
        );
    }
    Ok(())
}
