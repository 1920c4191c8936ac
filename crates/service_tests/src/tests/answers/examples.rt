//! The worked examples of the model, as messages, and what they keep as lookups show it. Those of
//! posts in part and of balancing's retries stand in `reads`.
use super::scripts::{BASE, play_all};
use std::test::Fail;

const SINGLE: &str = r#"# posted debits too large
North transfers 100: 1>2 MAX; 101: 1>2 1 => clock 6: 0@5 50@6

# posted credits too large
North transfers 100: 1>2 MAX; 101: 4>2 1 => clock 6: 0@5 51@6

# a reserved flag comes first
North transfers 1>2 10 flags=64 => clock 5: 4@5

# balancing with no room
North transfers 100: 3>2 MAX flags=16 => clock 5: 0@5
North POST /transfers/lookup ["100"] => {"clock":"5","transfers":[{"amount":"0","code":1,
  "credit_account_id":"2","debit_account_id":"3","flags":16,"id":"100","ledger":7,
  "pending_id":"0","timeout":0,"timestamp":"5","user_data_128":"0","user_data_32":0,
  "user_data_64":"0"}]}

# both balancing flags
North transfers 100: 2>1 30; 101: 2>4 20; 102: 1>2 MAX flags=48; 103: 1>2 MAX flags=32
   => clock 8: 0@5 0@6 0@7 0@8
North POST /transfers/lookup ["102"] => {"clock":"8","transfers":[{"amount":"30","code":1,
  "credit_account_id":"2","debit_account_id":"1","flags":48,"id":"102","ledger":7,
  "pending_id":"0","timeout":0,"timestamp":"7","user_data_128":"0","user_data_32":0,
  "user_data_64":"0"}]}
North POST /transfers/lookup ["103"] => {"clock":"8","transfers":[{"amount":"20","code":1,
  "credit_account_id":"2","debit_account_id":"1","flags":32,"id":"103","ledger":7,
  "pending_id":"0","timeout":0,"timestamp":"8","user_data_128":"0","user_data_32":0,
  "user_data_64":"0"}]}

# a limit on the credit side
North POST /accounts [{"id":"5","ledger":7,"code":10,"flags":4}] => clock 5: 0@5
North transfers 100: 5>1 30; 101: 1>5 31; 102: 1>5 30 pending; 103: 1>5 1
   => clock 9: 0@6 56@7 0@8 56@9

# the end of the clock
North@4611686018427387904 POST /accounts [{"id":"9","ledger":7,"code":10}]
   => clock_exhausted 503 Service Unavailable
North POST /accounts/lookup ["9"] => {"accounts":[],"clock":"4"}
North@4611686018427387904 transfers => clock 4611686018427387904:"#;

const TWO_PHASES: &str = r#"# voided
North transfers 100: 1>2 100 pending; 101: void=100 99; 101: void=100 0 => clock 7: 0@5 31@6 0@7
North POST /transfers/lookup ["101"] => {"clock":"7","transfers":[{"amount":"100","code":1,
  "credit_account_id":"2","debit_account_id":"1","flags":8,"id":"101","ledger":7,
  "pending_id":"100","timeout":0,"timestamp":"7","user_data_128":"0","user_data_32":0,
  "user_data_64":"0"}]}
North POST /accounts/lookup ["1"] => {"accounts":[{"code":10,"credits_pending":"0",
  "credits_posted":"0","debits_pending":"0","debits_posted":"0","flags":0,"id":"1","ledger":7,
  "timestamp":"1","user_data_128":"0","user_data_32":0,"user_data_64":"0"}],"clock":"7"}

# pending amounts count against a limit
North transfers 100: 1>3 50; 101: 3>2 50 pending; 102: 3>2 1 => clock 7: 0@5 0@6 55@7

# another debit account
North transfers 100: 1>2 5 pending; 101: 2>0 post=100 5 => clock 6: 0@5 26@6

# pending sums too large
North transfers 100: 1>2 MAX pending; 101: 1>2 1 pending; 102: 1>2 1; 103: 4>2 1 pending; 104: 4>2 1
   => clock 9: 0@5 48@6 52@7 49@8 53@9

# posted in time
North transfers 100: 1>2 100 pending timeout=1 => clock 5: 0@5
North@1000000003 transfers 101: post=100 MAX => clock 1000000004: 0@1000000004
North POST /accounts/lookup ["1"] => {"accounts":[{"code":10,"credits_pending":"0",
  "credits_posted":"0","debits_pending":"0","debits_posted":"100","flags":0,"id":"1","ledger":7,
  "timestamp":"1","user_data_128":"0","user_data_32":0,"user_data_64":"0"}],"clock":"1000000004"}

# posted too late
North transfers 100: 1>2 100 pending timeout=1 => clock 5: 0@5
North@1000000004 transfers 101: post=100 MAX => clock 1000000005: 34@1000000005
North POST /accounts/lookup ["1"] => {"accounts":[{"code":10,"credits_pending":"0",
  "credits_posted":"0","debits_pending":"0","debits_posted":"0","flags":0,"id":"1","ledger":7,
  "timestamp":"1","user_data_128":"0","user_data_32":0,"user_data_64":"0"}],"clock":"1000000005"}"#;

const CHAINS: &str = r#"# a chain falls whole
North transfers 100: 1>2 10 linked; 101: 3>2 10 linked; 102: 1>4 10 => clock 7: 2@5 55@6 2@7

# a chain left open
North transfers 100: 1>2 10 linked; 101: 1>2 10 linked => clock 6: 2@5 1@6

# the first of a chain fails
North transfers 100: 1>9 1 linked; 101: 1>9 1 => clock 6: 45@5 2@6

# an event behind a fallen chain
North transfers 100: 1>2 10 linked; 101: 1>9 10; 102: 1>2 5 => clock 7: 2@5 45@6 0@7

# an open chain that fails before its end
North transfers 100: 1>9 1 linked; 101: 1>2 1 linked; 102: 1>2 1 linked => clock 7: 45@5 2@6 1@7

# an id twice in one chain
North transfers 100: 1>2 1 linked; 100: 1>2 1 => clock 6: 2@5 7@6

# the same in a longer chain
North transfers 100: 1>2 1 linked; 100: 1>2 1 linked; 101: 1>2 1 => clock 7: 2@5 18@6 2@7

# pending and post in one chain, sent again
North transfers 100: 1>2 70 flags=3; 101: post=100 MAX => clock 6: 0@5 0@6
North POST /transfers/lookup ["101"] => {"clock":"6","transfers":[{"amount":"70","code":1,
  "credit_account_id":"2","debit_account_id":"1","flags":4,"id":"101","ledger":7,
  "pending_id":"100","timeout":0,"timestamp":"6","user_data_128":"0","user_data_32":0,
  "user_data_64":"0"}]}
North POST /accounts/lookup ["1"] => {"accounts":[{"code":10,"credits_pending":"0",
  "credits_posted":"0","debits_pending":"0","debits_posted":"70","flags":0,"id":"1","ledger":7,
  "timestamp":"1","user_data_128":"0","user_data_32":0,"user_data_64":"0"}],"clock":"6"}
North POST /accounts/lookup ["2"] => {"accounts":[{"code":10,"credits_pending":"0",
  "credits_posted":"70","debits_pending":"0","debits_posted":"0","flags":0,"id":"2","ledger":7,
  "timestamp":"2","user_data_128":"0","user_data_32":0,"user_data_64":"0"}],"clock":"6"}
North transfers 100: 1>2 70 flags=3; 101: post=100 MAX => clock 8: 18@7 2@8

# accounts in a chain
North POST /accounts [{"id":"5","ledger":7,"code":10,"flags":1},{"id":"6","ledger":0,"code":10}]
   => {"clock":"6","results":[{"number":2,"result":"linked_event_failed","timestamp":"5"},
  {"number":19,"result":"ledger_must_not_be_zero","timestamp":"6"}]}"#;

#[test]
fn answers_the_examples(rt: HostRuntime) -> Result<(), Fail> {
    for examples in [SINGLE, TWO_PHASES, CHAINS] {
        play_all(&rt, rt.alloc(), BASE, examples)?;
    }
    Ok(())
}
