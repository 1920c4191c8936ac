//! What one firm after the other sends, in turn.
use super::scripts::{BASE, play_all};
use std::test::Fail;

const FIRMS: &str = r#"# the clock never turns back
North joins
North@1000 POST /transfers [] => {"clock":"1000","results":[]}
North@1000 POST /accounts [{"id":"1","ledger":7,"code":10},{"id":"2","ledger":7,"code":10}]
   => {"clock":"1002","results":[{"number":0,"result":"ok","timestamp":"1001"},{"number":0,
  "result":"ok","timestamp":"1002"}]}
North@5 POST /transfers [{"id":"100","debit_account_id":"1","credit_account_id":"2",
  "amount":"10","ledger":7,"code":1}] => {"clock":"1003","results":[{"number":0,"result":"ok",
  "timestamp":"1003"}]}
# each firm has a clock of its own
South joins
South@7 transfers => clock 7:

# accounts of the first
North joins
North base => {"clock":"4","results":[{"number":0,"result":"ok","timestamp":"1"},{"number":0,
  "result":"ok","timestamp":"2"},{"number":0,"result":"ok","timestamp":"3"},{"number":0,
  "result":"ok","timestamp":"4"}]}
# accounts of the second
South joins
South base => {"clock":"4","results":[{"number":0,"result":"ok","timestamp":"1"},{"number":0,
  "result":"ok","timestamp":"2"},{"number":0,"result":"ok","timestamp":"3"},{"number":0,
  "result":"ok","timestamp":"4"}]}
# posted in part by the first
North transfers 100: 1>2 100 pending; 101: post=100 40; 102: post=100 60 => clock 7: 0@5 0@6 32@7
# posted in part by the second
South transfers 100: 1>2 100 pending; 101: post=100 40; 102: post=100 60 => clock 7: 0@5 0@6 32@7
# a post retried
North transfers 101: post=100 40; 101: post=100 41 => clock 9: 18@8 12@9"#;

const FAILED_IDS: &str = r#"North transfers 100: 9>2 10 => clock 5: 44@5
North POST /accounts [{"id":"9","ledger":7,"code":10}] => clock 6: 0@6
North transfers 100: 9>2 10 => clock 7: 60@7
North transfers 101: 9>2 10 => clock 8: 0@8
North transfers 102: post=77 5; 102: post=77 5 => clock 10: 24@9 60@10
North transfers 103: 1>2 1 linked; 104: 3>2 1 => clock 12: 2@11 55@12
North transfers 104: 1>2 1; 103: 1>2 1 => clock 14: 60@13 0@14
North transfers 104: 1>2 1 flags=64; 104: 1>2 1 flags=6 => clock 16: 4@15 60@16"#;

/// A transfer is sent by a key that no firm has, and again by the key that its firm has then.
const REKEYED: &str = "\
South transfers 100: 1>2 10 => unknown_key 401 Unauthorized
North transfers 100: 1>2 10 => clock 5: 0@5
North becomes South
North transfers 100: 1>2 10 => unknown_key 401 Unauthorized
South transfers 100: 1>2 10 => clock 6: 18@6";

#[test]
fn answers_under_another_key(rt: HostRuntime) -> Result<(), Fail> {
    play_all(&rt, rt.alloc(), BASE, REKEYED)
}

#[test]
fn answers_firm_by_firm(rt: HostRuntime) -> Result<(), Fail> {
    play_all(&rt, rt.alloc(), "", FIRMS)
}

#[test]
fn refuses_failed_ids(rt: HostRuntime) -> Result<(), Fail> {
    play_all(&rt, rt.alloc(), BASE, FAILED_IDS)
}
