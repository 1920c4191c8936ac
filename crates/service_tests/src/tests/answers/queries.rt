//! Queries of accounts and transfers, and what has become of holds.
use super::scripts::{BASE, play_all};
use std::test::Fail;

/// Account 5, of another ledger, is marked with 77. Its limit ends a page of two, and one of the
/// newest; another page ends with the accounts. Then accounts are asked for by each of the fields
/// that mark one, and by two of them.
const ACCOUNTS: &str = r#"North POST /accounts [{"id":"5","ledger":8,"code":11,"user_data_64":"77"}]
   => {"clock":"5","results":[{"number":0,"result":"ok","timestamp":"5"}]}
North POST /query/accounts {"limit":2,"timestamp_min":"2"} => {"accounts":[{"code":10,
  "credits_pending":"0","credits_posted":"0","debits_pending":"0","debits_posted":"0","flags":0,
  "id":"2","ledger":7,"timestamp":"2","user_data_128":"0","user_data_32":0,"user_data_64":"0"},
  {"code":10,"credits_pending":"0","credits_posted":"0","debits_pending":"0","debits_posted":"0",
  "flags":10,"id":"3","ledger":7,"timestamp":"3","user_data_128":"0","user_data_32":0,
  "user_data_64":"0"}],"clock":"5","next":"4"}
North POST /query/accounts {"limit":3,"timestamp_min":"4"} => {"accounts":[{"code":10,
  "credits_pending":"0","credits_posted":"0","debits_pending":"0","debits_posted":"0","flags":0,
  "id":"4","ledger":7,"timestamp":"4","user_data_128":"0","user_data_32":0,"user_data_64":"0"},
  {"code":11,"credits_pending":"0","credits_posted":"0","debits_pending":"0","debits_posted":"0",
  "flags":0,"id":"5","ledger":8,"timestamp":"5","user_data_128":"0","user_data_32":0,
  "user_data_64":"77"}],"clock":"5","next":"0"}
North POST /query/accounts {"flags":1,"limit":1} => {"accounts":[{"code":11,
  "credits_pending":"0","credits_posted":"0","debits_pending":"0","debits_posted":"0","flags":0,
  "id":"5","ledger":8,"timestamp":"5","user_data_128":"0","user_data_32":0,
  "user_data_64":"77"}],"clock":"5","next":"4"}
North POST /query/accounts {"flags":1,"limit":1,"timestamp_max":"1"}
   => {"accounts":[{"code":10,"credits_pending":"0","credits_posted":"0","debits_pending":"0",
  "debits_posted":"0","flags":0,"id":"1","ledger":7,"timestamp":"1","user_data_128":"0",
  "user_data_32":0,"user_data_64":"0"}],"clock":"5","next":"0"}
North POST /query/accounts {"limit":9,"user_data_64":"77"} => {"accounts":[{"code":11,
  "credits_pending":"0","credits_posted":"0","debits_pending":"0","debits_posted":"0","flags":0,
  "id":"5","ledger":8,"timestamp":"5","user_data_128":"0","user_data_32":0,
  "user_data_64":"77"}],"clock":"5","next":"0"}
North POST /query/accounts {"limit":9,"ledger":8} => {"accounts":[{"code":11,
  "credits_pending":"0","credits_posted":"0","debits_pending":"0","debits_posted":"0","flags":0,
  "id":"5","ledger":8,"timestamp":"5","user_data_128":"0","user_data_32":0,
  "user_data_64":"77"}],"clock":"5","next":"0"}
North POST /query/accounts {"limit":9,"code":11} => {"accounts":[{"code":11,
  "credits_pending":"0","credits_posted":"0","debits_pending":"0","debits_posted":"0","flags":0,
  "id":"5","ledger":8,"timestamp":"5","user_data_128":"0","user_data_32":0,
  "user_data_64":"77"}],"clock":"5","next":"0"}
North POST /query/accounts {"limit":9,"ledger":7,"code":11} => {"accounts":[],"clock":"5",
  "next":"0"}
North POST /query/accounts {"limit":9,"user_data_128":"77"} => {"accounts":[],"clock":"5",
  "next":"0"}
North POST /query/accounts {"limit":9,"user_data_32":77} => {"accounts":[],"clock":"5","next":"0"}
North POST /query/accounts {"limit":9,"timestamp_min":"3","timestamp_max":"2"}
   => {"accounts":[],"clock":"5","next":"0"}"#;

/// Three pending transfers, of which the first is posted in part and the last voided; the second is
/// due at 1000000006. Ids that are no holds are left out, and one that is asked twice is answered
/// twice.
const EXAMPLES: &str = r#"# transfers by time and by what marks them
North transfers 100: 1>2 100 pending; 101: 1>2 10 pending timeout=1; 102: 4>2 7 pending;
   103: post=100 40; 104: void=102 0 => clock 9: 0@5 0@6 0@7 0@8 0@9
North POST /query/transfers {"limit":1,"timestamp_min":"6","timestamp_max":"6"}
   => {"clock":"9","next":"7","transfers":[{"amount":"10","code":1,"credit_account_id":"2",
  "debit_account_id":"1","flags":2,"id":"101","ledger":7,"pending_id":"0","timeout":1,
  "timestamp":"6","user_data_128":"0","user_data_32":0,"user_data_64":"0"}]}
North POST /query/transfers {"limit":1,"timestamp_min":"7","timestamp_max":"6"}
   => {"clock":"9","next":"0","transfers":[]}
North POST /query/transfers {"code":1,"flags":1,"limit":1} => {"clock":"9","next":"8",
  "transfers":[{"amount":"7","code":1,"credit_account_id":"2","debit_account_id":"4","flags":8,
  "id":"104","ledger":7,"pending_id":"102","timeout":0,"timestamp":"9","user_data_128":"0",
  "user_data_32":0,"user_data_64":"0"}]}
North POST /transfers [{"id":"105","debit_account_id":"1","credit_account_id":"2","amount":"3",
  "ledger":7,"code":2,"user_data_64":"4711"}] => clock 10: 0@10
North POST /query/transfers {"limit":2,"user_data_64":"4711"} => {"clock":"10","next":"0",
  "transfers":[{"amount":"3","code":2,"credit_account_id":"2","debit_account_id":"1","flags":0,
  "id":"105","ledger":7,"pending_id":"0","timeout":0,"timestamp":"10","user_data_128":"0",
  "user_data_32":0,"user_data_64":"4711"}]}

# what has become of holds
North transfers 100: 1>2 100 pending; 101: 1>2 10 pending timeout=1; 102: 4>2 7 pending;
   103: post=100 40; 104: void=102 0 => clock 9: 0@5 0@6 0@7 0@8 0@9
North POST /pending/lookup ["101","9","100","102","103","101"] => {"clock":"9","pending":[
  {"due":"1000000006","id":"101","state":"open"},{"due":"0","id":"100","state":"posted"},
  {"due":"0","id":"102","state":"voided"},{"due":"1000000006","id":"101","state":"open"}]}
North POST /pending/open {"limit":2} => {"clock":"9","next":"0","pending":[{"due":"1000000006",
  "id":"101","state":"open","timestamp":"6"}]}
North POST /pending/open {"limit":1} => {"clock":"9","next":"7","pending":[{"due":"1000000006",
  "id":"101","state":"open","timestamp":"6"}]}
North POST /pending/open {"flags":1,"limit":1} => {"clock":"9","next":"5","pending":[
  {"due":"1000000006","id":"101","state":"open","timestamp":"6"}]}
North@1000000006 transfers => {"clock":"1000000006","results":[]}
North POST /pending/lookup ["101"] => {"clock":"1000000006","pending":[{"due":"1000000006",
  "id":"101","state":"expired"}]}
North POST /pending/open {"limit":2} => {"clock":"1000000006","next":"0","pending":[]}

# queries that are refused
North POST /query/accounts {} => bad_field 400 Bad Request
North POST /query/accounts {"limit":1001} => bad_field 400 Bad Request
North POST /query/transfers {"limit":1,"flags":2} => bad_field 400 Bad Request
North POST /query/transfers {"limit":1,"account_id":"1"} => bad_field 400 Bad Request
North POST /pending/open {"limit":0} => bad_field 400 Bad Request
North POST /pending/open {"limit":1,"ledger":7} => bad_field 400 Bad Request
North POST /pending/lookup [1] => bad_field 400 Bad Request
North GET /query/accounts => bad_method 405 Method Not Allowed
North GET /pending/open => bad_method 405 Method Not Allowed
North POST /query/holds {} => no_route 404 Not Found"#;

/// What nobody is told, whatever is in the body, and then a firm that has nothing yet, whatever
/// another has.
const OF_ITS_OWN: &str =
    r#"North transfers 100: 1>2 100 pending; 101: 1>2 10 pending timeout=1; 102: 4>2 7 pending;
   103: post=100 40; 104: void=102 0 => clock 9: 0@5 0@6 0@7 0@8 0@9
South POST /query/accounts {"limit":1} => unknown_key 401 Unauthorized
South POST /query/transfers {} => unknown_key 401 Unauthorized
South POST /pending/lookup [] => unknown_key 401 Unauthorized
South POST /pending/open no page => unknown_key 401 Unauthorized
South joins
South POST /query/accounts {"limit":1} => {"accounts":[],"clock":"0","next":"0"}
South POST /query/transfers {"limit":1} => {"clock":"0","next":"0","transfers":[]}
South POST /pending/lookup ["101"] => {"clock":"0","pending":[]}
South POST /pending/open {"limit":1} => {"clock":"0","next":"0","pending":[]}"#;

#[test]
fn answers_queries(rt: HostRuntime) -> Result<(), Fail> {
    for examples in [EXAMPLES, ACCOUNTS] {
        play_all(&rt, rt.alloc(), BASE, examples)?;
    }
    Ok(())
}

#[test]
fn shows_a_firm_its_own_alone(rt: HostRuntime) -> Result<(), Fail> {
    play_all(&rt, rt.alloc(), BASE, OF_ITS_OWN)
}
