//! Runs as text: a step a line, and behind ` = ` what it is to be told.
//!
//! - `tenant 3`: a new tenant, whose name and key have this number; `tenant 3 named 4`: of another
//!   name.
//! - `key 4 of 3`: the tenant whose name has the number 3 gets the key with the number 4.
//! - `open`: the ledgers are opened again.
//! - `3@5 transfers 100 1 2 10; 101 0 0 40 4 100`: transfers that tenant 3 sends at the moment 5.
//! - `3@5 base`: its four accounts. `3@5 POST /accounts/lookup ["1"]`: another message of it.
//! - `3@5 raw GET / HTTP/1.1||`: a message as it is written.
//!
//! A line that begins with two spaces goes on with the one before it.

use super::messages::{Unmade, step, wanted};
use super::rounds::{one_by_one, rounds_of};
use std::alloc::{AllocError, Global};
use std::process::Abort;
use std::test::Fail;
use store::{AddTenant, ChangeKey};
use whole_runs::{Answer, Reopening, Step, run_all};
use wire::NoMemory;

/// What a step is told, as text.
pub fn told(answer: &Answer) -> &[u8] {
    match answer {
        Answer::Replied(reply) => reply.bytes(),
        Answer::Round(_) => b"a round",
        Answer::Added(Ok(())) => b"added",
        Answer::Added(Err(AddTenant::NameTaken)) => b"name_taken",
        Answer::Added(Err(AddTenant::DigestTaken)) => b"digest_taken",
        Answer::Keyed(Ok(())) => b"keyed",
        Answer::Keyed(Err(ChangeKey::NoTenant)) => b"no_tenant",
        Answer::Keyed(Err(ChangeKey::DigestTaken)) => b"digest_taken",
        Answer::Reopened(Ok(())) => b"opened",
        Answer::Added(Err(_)) | Answer::Keyed(Err(_)) | Answer::Reopened(Err(_)) => b"unavailable",
    }
}

/// Runs steps, and forgets what a run promises.
pub fn answers<L: Reopening>(
    alloc: Global,
    ledgers: &mut L,
    steps: &[Step],
) -> Result<Vec<Answer>, NoMemory> {
    run_all(alloc, ledgers, steps)
}

/// The steps of a script.
pub fn steps(alloc: Global, text: &str) -> Result<Vec<Step>, Unmade> {
    let mut steps = Vec::new(alloc);
    for line in text.lines() {
        if let Some((what, _)) = line.split_once(" = ") {
            steps.push(step(alloc, what)?)?;
        }
    }
    Ok(steps)
}

/// Looks at what is told.
fn are_told(rt: &impl Abort, alloc: Global, text: &str, answers: &[Answer]) -> Result<(), Fail> {
    let mut left = answers.iter();
    for line in text.lines() {
        if let Some((_, want)) = line.split_once(" = ") {
            let got = left.next().map_or(b"nothing".as_slice(), told);
            assert!(rt; got == wanted(alloc, want)?.as_bytes(), "{line}");
        }
    }
    assert!(rt; left.next().is_none());
    Ok(())
}

/// Runs a script, and looks at what is told. In rounds, requests that stand side by side are one
/// round: each is told the same.
pub fn runs<L: Reopening>(
    rt: &impl Abort,
    alloc: Global,
    ledgers: &mut L,
    script: &str,
    in_rounds: bool,
) -> Result<(), Fail> {
    // One line for each step.
    let text = script.replace(alloc, "\n  ", "")?;
    let steps = steps(alloc, &text)?;
    let answers = if in_rounds {
        let rows = rounds_of(alloc, steps)?;
        one_by_one(alloc, answers(alloc, ledgers, &rows)?)?
    } else {
        answers(alloc, ledgers, &steps)?
    };
    are_told(rt, alloc, &text, &answers)
}
