//! Requests of new tenants, reads, and refusals.

/// The clock never turns back, and each tenant has its own.
pub const CLOCKS: &str = r#"tenant 0 = added
0@1000 POST /transfers [] = {"clock":"1000","results":[]}
0@1000 POST /accounts [{"id":"1","ledger":7,"code":10},{"id":"2","ledger":7,"code":10}]
   = {"clock":"1002","results":[{"number":0,"result":"ok","timestamp":"1001"},
  {"number":0,"result":"ok","timestamp":"1002"}]}
0@5 transfers 100 1 2 10 = 0@1003
tenant 1 = added
1@7 POST /transfers [] = {"clock":"7","results":[]}
"#;

/// Reads of the base, of 'posted in part' and of 'balancing, and its retries'.
pub const READS: &str = r#"tenant 0 = added
0@0 base = 0@1 0@2 0@3 0@4
0@0 POST /accounts/lookup ["9"] = {"accounts":[],"clock":"4"}
0@0 POST /accounts/lookup ["1"] = {"accounts":[{"code":10,"credits_pending":"0",
  "credits_posted":"0","debits_pending":"0","debits_posted":"0","flags":0,"id":"1","ledger":7,
  "timestamp":"1","user_data_128":"0","user_data_32":0,"user_data_64":"0"}],"clock":"4"}
0@0 transfers 100 1 2 100 2; 101 0 0 40 4 100; 102 0 0 60 4 100 = 0@5 0@6 32@7
0@0 POST /accounts/lookup ["2","9","1","2"] = {"accounts":[
  {"code":10,"credits_pending":"0","credits_posted":"40","debits_pending":"0",
  "debits_posted":"0","flags":0,"id":"2","ledger":7,"timestamp":"2","user_data_128":"0",
  "user_data_32":0,"user_data_64":"0"},
  {"code":10,"credits_pending":"0","credits_posted":"0","debits_pending":"0",
  "debits_posted":"40","flags":0,"id":"1","ledger":7,"timestamp":"1","user_data_128":"0",
  "user_data_32":0,"user_data_64":"0"},
  {"code":10,"credits_pending":"0","credits_posted":"40","debits_pending":"0",
  "debits_posted":"0","flags":0,"id":"2","ledger":7,"timestamp":"2","user_data_128":"0",
  "user_data_32":0,"user_data_64":"0"}],"clock":"7"}
0@0 POST /transfers/lookup ["101","9","100"] = {"clock":"7","transfers":[
  {"amount":"40","code":1,"credit_account_id":"2","debit_account_id":"1","flags":4,"id":"101",
  "ledger":7,"pending_id":"100","timeout":0,"timestamp":"6","user_data_128":"0",
  "user_data_32":0,"user_data_64":"0"},
  {"amount":"100","code":1,"credit_account_id":"2","debit_account_id":"1","flags":2,"id":"100",
  "ledger":7,"pending_id":"0","timeout":0,"timestamp":"5","user_data_128":"0",
  "user_data_32":0,"user_data_64":"0"}]}
tenant 1 = added
1@0 base = 0@1 0@2 0@3 0@4
1@0 transfers 100 1 3 50; 101 3 2 20; 102 3 2 MAX 16; 102 3 2 29 16; 102 3 2 30 16
   = 0@5 0@6 0@7 12@8 18@9
1@0 POST /history/transfers {"account_id":"3","flags":7,"limit":2} = {"clock":"9","transfers":[
  {"amount":"30","code":1,"credit_account_id":"2","debit_account_id":"3","flags":16,"id":"102",
  "ledger":7,"pending_id":"0","timeout":0,"timestamp":"7","user_data_128":"0",
  "user_data_32":0,"user_data_64":"0"},
  {"amount":"20","code":1,"credit_account_id":"2","debit_account_id":"3","flags":0,"id":"101",
  "ledger":7,"pending_id":"0","timeout":0,"timestamp":"6","user_data_128":"0",
  "user_data_32":0,"user_data_64":"0"}]}
1@0 POST /history/balances {"account_id":"3","flags":3,"limit":10} = {"balances":[
  {"credits_pending":"0","credits_posted":"50","debits_pending":"0","debits_posted":"0",
  "timestamp":"5"},
  {"credits_pending":"0","credits_posted":"50","debits_pending":"0","debits_posted":"20",
  "timestamp":"6"},
  {"credits_pending":"0","credits_posted":"50","debits_pending":"0","debits_posted":"50",
  "timestamp":"7"}],"clock":"9"}
"#;

/// Messages that are refused, and what is left then.
pub const REFUSALS: &str = r#"tenant 0 = added
0@0 base = 0@1 0@2 0@3 0@4
no key, 63 digits, and a key that no tenant has
0@9 raw POST /transfers HTTP/1.1|content-length: 2||[] = unknown_key 401 Unauthorized
0@9 raw POST /transfers HTTP/1.1|x-ledger-key:
   000000000000000000000000000000000000000000000000000000000000000
  |content-length: 2||[] = unknown_key 401 Unauthorized
1@9 POST /transfers [] = unknown_key 401 Unauthorized
amounts
0@9 POST /transfers [{"amount":"01"}] = bad_field 400 Bad Request
0@9 POST /transfers [{"amount":1}] = bad_field 400 Bad Request
0@9 POST /transfers [{"amount":"340282366920938463463374607431768211456"}]
   = bad_field 400 Bad Request
a body one byte short, and then the end
0@9 raw POST /transfers HTTP/1.1|x-ledger-key:
   0000000000000000000000000000000000000000000000000000000000000000
  |content-length: 3||[] = truncated 400 Bad Request
0@9 raw = truncated 400 Bad Request
1,001 events
0@9 many = too_many_events 413 Payload Too Large
0@9 POST /x = no_route 404 Not Found
0@9 POST /history/balances {"account_id":"1","flags":3,"limit":10} = no_history 409 Conflict
0@9 POST /history/balances {"account_id":"9","flags":3,"limit":10} = no_account 404 Not Found
the clock has not moved
0@9 POST /accounts/lookup ["9"] = {"accounts":[],"clock":"4"}
"#;
