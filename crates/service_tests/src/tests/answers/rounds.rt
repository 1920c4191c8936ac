//! Messages of several firms in one round: each is told what it is told alone.
use super::scripts::{are_told, messages, play_all};
use crate::tests::asserting::same;
use crate::tests::firms::Firms;
use crate::tests::messages::{FIRST, SECOND};
use ledger_http::Reply;
use service::Message;
use std::alloc::Global;
use std::process::Abort;
use std::test::Fail;

/// Requests that stand on one another, of one firm and of another, with a retry, a read, and two
/// that are refused.
const ROUND: &str = "\
North base => clock 4: 0@1 0@2 0@3 0@4
South base => clock 4: 0@1 0@2 0@3 0@4
North transfers 100: 1>2 70 flags=3; 101: post=100 MAX => clock 6: 0@5 0@6
Nobody@9 transfers => unknown_key 401 Unauthorized
South transfers 100: 1>2 100 pending; 101: post=100 40; 102: post=100 60 => clock 7: 0@5 0@6 32@7
North cut => truncated 400 Bad Request
South transfers 101: post=100 40; 101: post=100 41 => clock 9: 18@8 12@9
North GET /statement/1 => csv 5,100,debit,pending,70,70,0,0,0 6,101,debit,post,70,0,70,0,0
North@20 transfers => clock 20:";

/// Two firms, of which neither has sent anything.
const TWO: &str = "North joins
South joins";

/// Their replies to the messages of one round, which is sent again where memory runs out.
fn in_a_round(alloc: Global, messages: &[Message]) -> Option<Vec<Reply>> {
    let mut firms = Firms::with(alloc, &[FIRST, SECOND]).ok()?;
    match firms.round(messages) {
        Ok(replies) => Some(replies),
        Err(_) => firms.round(messages).ok(),
    }
}

/// Looks at what a round is told, if there is memory for that.
fn tells_a_round(rt: &impl Abort, alloc: Global) -> Option<()> {
    let messages = messages(alloc, ROUND).ok()?;
    let replies = in_a_round(alloc, &messages)?;
    are_told(rt, alloc, ROUND, &replies).ok()
}

#[test]
fn tells_a_round_what_each_is_told_alone(rt: HostRuntime) -> Result<(), Fail> {
    play_all(&rt, rt.alloc(), TWO, ROUND)?;
    Ok(tells_a_round(&rt, rt.alloc()).ok_or("no memory")?)
}

#[test]
fn answers_a_round_of_none(rt: HostRuntime) -> Result<(), Fail> {
    let replies = Firms::with(rt.alloc(), &[FIRST])?.round(&[])?;
    same(&rt, "the replies", replies.len(), 0);
    Ok(())
}

/// A round is answered whichever allocation fails, at the latest when it is sent again.
#[test]
fn a_round_survives_want_of_memory(rt: HostRuntime) {
    let _ = tells_a_round(&rt, rt.alloc());
}
