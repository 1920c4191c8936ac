//! Lookups, histories and statements. The third transfer of the histories is lowered to what is
//! left to account 3, and sent twice more.
use super::scripts::{BASE, play_all};
use std::test::Fail;

const READS: &str = r#"# accounts as they were opened
North POST /accounts/lookup ["9"] => {"accounts":[],"clock":"4"}
North POST /accounts/lookup ["1"] => {"accounts":[{"code":10,"credits_pending":"0",
  "credits_posted":"0","debits_pending":"0","debits_posted":"0","flags":0,"id":"1","ledger":7,
  "timestamp":"1","user_data_128":"0","user_data_32":0,"user_data_64":"0"}],"clock":"4"}

# what was posted in part
North transfers 100: 1>2 100 pending; 101: post=100 40; 102: post=100 60 => clock 7: 0@5 0@6 32@7
North POST /accounts/lookup ["2","9","1","2"] => {"accounts":[{"code":10,"credits_pending":"0",
  "credits_posted":"40","debits_pending":"0","debits_posted":"0","flags":0,"id":"2","ledger":7,
  "timestamp":"2","user_data_128":"0","user_data_32":0,"user_data_64":"0"},{"code":10,
  "credits_pending":"0","credits_posted":"0","debits_pending":"0","debits_posted":"40","flags":0,
  "id":"1","ledger":7,"timestamp":"1","user_data_128":"0","user_data_32":0,"user_data_64":"0"},
  {"code":10,"credits_pending":"0","credits_posted":"40","debits_pending":"0",
  "debits_posted":"0","flags":0,"id":"2","ledger":7,"timestamp":"2","user_data_128":"0",
  "user_data_32":0,"user_data_64":"0"}],"clock":"7"}
North POST /transfers/lookup ["101","9","100"] => {"clock":"7","transfers":[{"amount":"40",
  "code":1,"credit_account_id":"2","debit_account_id":"1","flags":4,"id":"101","ledger":7,
  "pending_id":"100","timeout":0,"timestamp":"6","user_data_128":"0","user_data_32":0,
  "user_data_64":"0"},{"amount":"100","code":1,"credit_account_id":"2","debit_account_id":"1",
  "flags":2,"id":"100","ledger":7,"pending_id":"0","timeout":0,"timestamp":"5",
  "user_data_128":"0","user_data_32":0,"user_data_64":"0"}]}
North GET /statement/1 => csv 5,100,debit,pending,100,100,0,0,0 6,101,debit,post,40,0,40,0,0

# what has expired
North POST /transfers [{"id":"100","debit_account_id":"1","credit_account_id":"2","amount":"100",
  "ledger":7,"code":1,"flags":2,"timeout":1}] => clock 5: 0@5
North@1000000004 POST /transfers [{"id":"101","pending_id":"100","flags":4,
  "amount":"340282366920938463463374607431768211455"}] => clock 1000000005: 34@1000000005
North POST /transfers [{"id":"102","debit_account_id":"1","credit_account_id":"2","amount":"10",
  "ledger":7,"code":1}] => clock 1000000006: 0@1000000006
North GET /statement/1
   => csv 5,100,debit,pending,100,100,0,0,0 1000000006,102,debit,single,10,0,10,0,0

# histories
North POST /transfers [{"id":"100","debit_account_id":"1","credit_account_id":"3","amount":"50",
  "ledger":7,"code":1},{"id":"101","debit_account_id":"3","credit_account_id":"2","amount":"20",
  "ledger":7,"code":1},{"id":"102","debit_account_id":"3","credit_account_id":"2","flags":16,
  "amount":"340282366920938463463374607431768211455","ledger":7,"code":1},{"id":"102",
  "debit_account_id":"3","credit_account_id":"2","flags":16,"amount":"29","ledger":7,"code":1},
  {"id":"102","debit_account_id":"3","credit_account_id":"2","flags":16,"amount":"30","ledger":7,
  "code":1}] => {"clock":"9","results":[{"number":0,"result":"ok","timestamp":"5"},{"number":0,
  "result":"ok","timestamp":"6"},{"number":0,"result":"ok","timestamp":"7"},{"number":12,
  "result":"exists_with_different_amount","timestamp":"8"},{"number":18,"result":"exists",
  "timestamp":"9"}]}
North POST /history/transfers {"account_id":"3","flags":7,"limit":2}
   => {"clock":"9","transfers":[{"amount":"30","code":1,"credit_account_id":"2",
  "debit_account_id":"3","flags":16,"id":"102","ledger":7,"pending_id":"0","timeout":0,
  "timestamp":"7","user_data_128":"0","user_data_32":0,"user_data_64":"0"},{"amount":"20",
  "code":1,"credit_account_id":"2","debit_account_id":"3","flags":0,"id":"101","ledger":7,
  "pending_id":"0","timeout":0,"timestamp":"6","user_data_128":"0","user_data_32":0,
  "user_data_64":"0"}]}
North POST /history/balances {"account_id":"3","flags":3,"limit":10}
   => {"balances":[{"credits_pending":"0","credits_posted":"50","debits_pending":"0",
  "debits_posted":"0","timestamp":"5"},{"credits_pending":"0","credits_posted":"50",
  "debits_pending":"0","debits_posted":"20","timestamp":"6"},{"credits_pending":"0",
  "credits_posted":"50","debits_pending":"0","debits_posted":"50","timestamp":"7"}],"clock":"9"}"#;

#[test]
fn answers_reads(rt: HostRuntime) -> Result<(), Fail> {
    play_all(&rt, rt.alloc(), BASE, READS)
}
