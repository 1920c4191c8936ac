//! Scripts: what firms send, a message a line, and behind ` => ` what each is told.
//!
//! - `North@5 transfers 100: 1>2 10 => clock 6: 0@6`: a message at the moment 5, or at 0 where none
//!   is told. `messages` says what else may stand on either side.
//! - `North joins`: a new firm. `North becomes South`: it gets another key.
//! - `# a title`.
//!
//! A line that begins with two spaces goes on with the one before it. Where a script has several
//! paragraphs, each is played by firms of its own.
use super::messages::{message, wanted};
use crate::tests::asserting::same;
use crate::tests::firms::Firms;
use ledger_http::Reply;
use service::Message;
use std::alloc::{AllocError, Global};
use std::process::Abort;
use std::test::Fail;

/// A firm with its four accounts.
pub(crate) const BASE: &str = r#"North joins
North base => {"clock":"4","results":[{"number":0,"result":"ok","timestamp":"1"},
  {"number":0,"result":"ok","timestamp":"2"},{"number":0,"result":"ok","timestamp":"3"},
  {"number":0,"result":"ok","timestamp":"4"}]}"#;

/// Whoever answers messages.
pub(crate) trait Answers {
    fn answer(&mut self, alloc: Global, bytes: &[u8], moment: u64) -> Reply;
}

/// A script with a line for each message.
pub(crate) fn joined(alloc: Global, script: &str) -> Result<String, AllocError> {
    script.replace(alloc, "\n  ", "")
}

/// What is sent, and what is told.
pub(crate) fn parts(line: &str) -> (&str, &str) {
    line.split_once(" => ").unwrap_or((line, ""))
}

/// Sends the message of a line, and looks at the reply.
pub(crate) fn exchange<A: Answers>(
    rt: &impl Abort,
    alloc: Global,
    firms: &mut A,
    line: &str,
) -> Result<(), AllocError> {
    if line.starts_with('#') {
        return Ok(());
    }
    let (asked, want) = parts(line);
    let message = message(alloc, asked)?;
    let want = wanted(alloc, want)?;
    let reply = firms.answer(alloc, &message.bytes, message.moment);
    same(rt, line, reply.bytes(), want.as_slice());
    Ok(())
}

/// The messages of a script.
pub(crate) fn messages(alloc: Global, script: &str) -> Result<Vec<Message>, AllocError> {
    let mut messages = Vec::new(alloc);
    for line in script.lines() {
        messages.push(message(alloc, parts(line).0)?)?;
    }
    Ok(messages)
}

/// Looks at the replies to the messages of a script.
pub(crate) fn are_told(
    rt: &impl Abort,
    alloc: Global,
    script: &str,
    replies: &[Reply],
) -> Result<(), AllocError> {
    same(rt, "the replies", replies.len(), script.lines().count());
    for (line, reply) in script.lines().zip(replies) {
        let want = wanted(alloc, parts(line).1)?;
        same(rt, line, reply.bytes(), want.as_slice());
    }
    Ok(())
}

/// A firm with its four accounts, at clock 4.
pub(crate) fn base(rt: &impl Abort, alloc: Global) -> Result<Firms, Fail> {
    let mut firms = Firms::new(alloc);
    firms.play(rt, BASE)?;
    Ok(firms)
}

/// Plays each paragraph of a script behind what comes first, which may be nothing.
pub(crate) fn play_all(
    rt: &impl Abort,
    alloc: Global,
    first: &str,
    paragraphs: &str,
) -> Result<(), Fail> {
    for script in paragraphs.split("\n\n") {
        let mut firms = Firms::new(alloc);
        firms.play(rt, first)?;
        firms.play(rt, script)?;
    }
    Ok(())
}
