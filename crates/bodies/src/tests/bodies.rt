//! What bodies are answered.
use super::played::base;
use crate::plain_reply::PlainReply;
use crate::printing::printed;
use crate::responding::respond_plain;
use crate::sample_book::{FIRST, SECOND, two_tenants};
use plain::Book;
use std::alloc::{AllocError, Global};
use std::process::Abort;
use std::test::Fail;

/// One transfer.
const BODY: &[u8] =
    b"[{\"id\":\"100\",\"debit_account_id\":\"1\",\"credit_account_id\":\"2\",\"amount\":\"10\",\
        \"ledger\":7,\"code\":1}]";

/// A chain that fails, and one of a pending transfer and its post.
const CHAINS: &[u8] =
    b"[{\"id\":\"100\",\"debit_account_id\":\"1\",\"credit_account_id\":\"2\",\"amount\":\"10\",\
        \"ledger\":7,\"code\":1,\"flags\":1},\
        {\"id\":\"101\",\"debit_account_id\":\"1\",\"credit_account_id\":\"9\",\"amount\":\"10\",\
        \"ledger\":7,\"code\":1},\
        {\"id\":\"102\",\"debit_account_id\":\"2\",\"credit_account_id\":\"1\",\"amount\":\"5\",\
        \"ledger\":7,\"code\":1,\"flags\":3},\
        {\"id\":\"103\",\"pending_id\":\"102\",\"amount\":\"5\",\"flags\":4}]";

/// A body, the moment, and the body of the reply or the name of the refusal.
pub(super) type Turn = (&'static [u8], u64, &'static [u8]);

pub(super) const IN_TURN: &[Turn] = &[
    (
        BODY,
        0,
        b"{\"clock\":\"3\",\"results\":[{\"number\":0,\"result\":\"ok\",\"timestamp\":\"3\"}]}",
    ),
    (
        BODY,
        0,
        b"{\"clock\":\"4\",\"results\":[{\"number\":18,\"result\":\"exists\",\
            \"timestamp\":\"4\"}]}",
    ),
    (
        b"[{\"id\":\"100\",\"debit_account_id\":\"1\",\"credit_account_id\":\"2\",\
            \"amount\":\"11\",\"ledger\":7,\"code\":1}]",
        0,
        b"{\"clock\":\"5\",\"results\":[{\"number\":12,\
            \"result\":\"exists_with_different_amount\",\"timestamp\":\"5\"}]}",
    ),
    (b"[]", 1000, b"{\"clock\":\"1000\",\"results\":[]}"),
];

pub(super) const CHAINS_AND_POSTS: &[Turn] = &[(
    CHAINS,
    0,
    b"{\"clock\":\"6\",\"results\":[{\"number\":2,\"result\":\"linked_event_failed\",\
        \"timestamp\":\"3\"},\
        {\"number\":45,\"result\":\"credit_account_not_found\",\"timestamp\":\"4\"},\
        {\"number\":0,\"result\":\"ok\",\"timestamp\":\"5\"},\
        {\"number\":0,\"result\":\"ok\",\"timestamp\":\"6\"}]}",
)];

/// Worked examples of chains, each on the base of the model.
const ON_THE_BASE: &[Turn] = &[
    (
        b"[{\"id\":\"100\",\"debit_account_id\":\"1\",\"credit_account_id\":\"2\",\
            \"amount\":\"10\",\"ledger\":7,\"code\":1,\"flags\":1},\
            {\"id\":\"101\",\"debit_account_id\":\"3\",\"credit_account_id\":\"2\",\
            \"amount\":\"10\",\"ledger\":7,\"code\":1,\"flags\":1},\
            {\"id\":\"102\",\"debit_account_id\":\"1\",\"credit_account_id\":\"4\",\
            \"amount\":\"10\",\"ledger\":7,\"code\":1}]",
        0,
        b"{\"clock\":\"7\",\"results\":[{\"number\":2,\"result\":\"linked_event_failed\",\
            \"timestamp\":\"5\"},\
            {\"number\":55,\"result\":\"exceeds_credits\",\"timestamp\":\"6\"},\
            {\"number\":2,\"result\":\"linked_event_failed\",\"timestamp\":\"7\"}]}",
    ),
    (
        b"[{\"id\":\"100\",\"debit_account_id\":\"1\",\"credit_account_id\":\"2\",\
            \"amount\":\"10\",\"ledger\":7,\"code\":1,\"flags\":1},\
            {\"id\":\"101\",\"debit_account_id\":\"1\",\"credit_account_id\":\"2\",\
            \"amount\":\"10\",\"ledger\":7,\"code\":1,\"flags\":1}]",
        0,
        b"{\"clock\":\"6\",\"results\":[{\"number\":2,\"result\":\"linked_event_failed\",\
            \"timestamp\":\"5\"},\
            {\"number\":1,\"result\":\"linked_event_chain_open\",\"timestamp\":\"6\"}]}",
    ),
    (
        b"[{\"id\":\"100\",\"debit_account_id\":\"1\",\"credit_account_id\":\"2\",\
            \"amount\":\"70\",\"ledger\":7,\"code\":1,\"flags\":3},\
            {\"id\":\"101\",\"pending_id\":\"100\",\
            \"amount\":\"340282366920938463463374607431768211455\",\"flags\":4}]",
        0,
        b"{\"clock\":\"6\",\"results\":[{\"number\":0,\"result\":\"ok\",\"timestamp\":\"5\"},\
            {\"number\":0,\"result\":\"ok\",\"timestamp\":\"6\"}]}",
    ),
];

/// What changes nothing, and then what shows it.
const REFUSED: &[Turn] = &[
    (b"[{\"amount\":\"01\"}]", 0, b"bad_field"),
    (b"[{\"amount\":1}]", 0, b"bad_field"),
    (
        b"[{\"amount\":\"340282366920938463463374607431768211456\"}]",
        0,
        b"bad_field",
    ),
    (b"[{\"at\":\"1\"}]", 0, b"bad_field"),
    (b"[{\"id\":null}]", 0, b"bad_field"),
    (b"[{\"code\":65536}]", 0, b"bad_field"),
    (b"{}", 0, b"bad_field"),
    (b"", 0, b"body_not_json"),
    (b"\xff", 0, b"body_not_json"),
    (b"[{\"x\":1e400}]", 0, b"body_not_json"),
    (b"[1", 0, b"body_not_json"),
    (b"[]", (1 << 62) + 1, b"clock_exhausted"),
    (b"[]", u64::MAX, b"clock_exhausted"),
    (b"[]", 0, b"{\"clock\":\"2\",\"results\":[]}"),
];

/// The body of the reply to a tenant, or the name of the refusal.
fn told(
    alloc: Global,
    book: &mut Book,
    digest: &[u8; 32],
    body: &[u8],
    moment: u64,
) -> Result<Vec<u8>, AllocError> {
    match respond_plain(alloc, book, digest, body, moment) {
        PlainReply::Body(text) => Ok(text),
        PlainReply::Refused(refusal) => refusal.name().as_bytes().to_vec(alloc),
        PlainReply::Unavailable => Err(AllocError),
    }
}

/// How many transfers the tenants have.
pub(super) fn counts(book: &mut Book) -> (usize, usize) {
    (count(book, &FIRST), count(book, &SECOND))
}

fn count(book: &mut Book, digest: &[u8; 32]) -> usize {
    match book.tables(digest) {
        Some(tables) => tables.transfers().len(),
        None => 0,
    }
}

// Answers the turns one after the other, and says how many transfers the tenants have then.
fn answers(
    rt: &impl Abort,
    alloc: Global,
    book: &mut Book,
    turns: &[Turn],
) -> Result<(usize, usize), AllocError> {
    for (body, moment, want) in turns {
        let told = told(alloc, book, &FIRST, body, *moment)?;
        assert_eq!(rt; told.as_slice(), *want);
    }
    Ok(counts(book))
}

#[test]
fn answers_bodies(rt: HostRuntime) -> Result<(), Fail> {
    let alloc = rt.alloc();
    for (turns, want) in [
        (IN_TURN, (1, 0)),
        (CHAINS_AND_POSTS, (2, 0)),
        (REFUSED, (0, 0)),
    ] {
        let kept = answers(&rt, alloc, &mut two_tenants(alloc)?, turns)?;
        assert_eq!(rt; kept, want);
    }
    for turn in ON_THE_BASE {
        let mut book = Book::new(alloc);
        book.add(FIRST, base(&rt, alloc)?.into_tables())?;
        let _kept = answers(&rt, alloc, &mut book, &[*turn])?;
    }
    Ok(())
}

/// A body, and the beginning of what is told.
const LIMITS: [(Long, &str); 4] = [
    (Long::Objects(1001), "too_many_events"),
    (
        Long::Objects(1000),
        "{\"clock\":\"1002\",\"results\":[{\"number\":5,",
    ),
    (Long::Nested(127), "bad_field"),
    (Long::Nested(128), "body_not_json"),
];

enum Long {
    /// A list of so many objects.
    Objects(usize),
    /// So many lists in one another.
    Nested(usize),
}

// The body as text.
fn text_of(alloc: Global, long: &Long) -> Result<String, AllocError> {
    let mut body = String::new(alloc);
    match long {
        Long::Objects(count) => {
            body.push_str("[{}")?;
            push(&mut body, ",{}", count.saturating_sub(1))?;
            body.push_str("]")?;
        }
        Long::Nested(count) => {
            push(&mut body, "[", *count)?;
            push(&mut body, "]", *count)?;
        }
    }
    Ok(body)
}

// Adds a text so many times.
fn push(body: &mut String, text: &str, count: usize) -> Result<(), AllocError> {
    for _ in 0..count {
        body.push_str(text)?;
    }
    Ok(())
}

#[test]
fn answers_at_the_limits(rt: HostRuntime) -> Result<(), Fail> {
    let mut book = two_tenants(rt.alloc())?;
    for (body, want) in &LIMITS {
        let body = text_of(rt.alloc(), body)?;
        let told = told(rt.alloc(), &mut book, &FIRST, body.as_bytes(), 0)?;
        assert!(rt; told.as_slice().starts_with(want.as_bytes()), "{want}");
    }
    Ok(())
}

#[test]
fn refuses_an_unknown_key(rt: HostRuntime) -> Result<(), Fail> {
    let mut book = two_tenants(rt.alloc())?;
    let told = told(rt.alloc(), &mut book, &[2; 32], b"[1", 0)?;
    assert_eq!(rt; told.as_slice(), b"unknown_key".as_slice());
    Ok(())
}

#[test]
fn prints_a_line(rt: HostRuntime) -> Result<(), Fail> {
    let refused = printed(rt.alloc(), b"[1")?;
    assert_eq!(rt;
        refused.as_slice(),
        b"{\"error\":\"body_not_json\"}\n".as_slice()
    );
    Ok(())
}
