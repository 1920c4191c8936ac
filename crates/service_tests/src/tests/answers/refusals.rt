//! Messages that are refused, and what is left then.
use super::scripts::{BASE, play_all};
use std::test::Fail;

const REFUSALS: &str = r#"# no key
raw POST /transfers HTTP/1.1|content-length: 2||[] => unknown_key 401 Unauthorized

# messages cut short, bad bodies and long ones
North POST /transfers [{"id":"100","amount":"01"}] => bad_field 400 Bad Request
North POST /transfers [{"id":"100","amount":1}] => bad_field 400 Bad Request
North POST /transfers [{"id":"100","amount":"340282366920938463463374607431768211456"}]
   => bad_field 400 Bad Request
North cut => truncated 400 Bad Request
raw => truncated 400 Bad Request
North copies => too_many_events 413 Payload Too Large
North@9 POST /accounts/lookup [] => {"accounts":[],"clock":"4"}

# where a body is refused, if that is asked for
North detail /transfers [{},{"id":"1","amount":1}] => 400 Bad Request: {"error":"bad_field",
  "event":2,"field":"amount","want":"a string of decimal digits, with no zero in front, below 2^128"}
North detail /transfers [{"id":"1"] => 400 Bad Request: {"error":"body_not_json","want":"JSON"}
North detail /history/balances {"account_id":"9","flags":3,"limit":10} => no_account 404 Not Found
North detail /accounts/lookup [] => {"accounts":[],"clock":"4"}
South detail /transfers no list => unknown_key 401 Unauthorized

# bodies that are judged and not booked, which needs a key
North POST /lint/transfers [{"id":"1"},{"id":"1"}] => {"events":2}
North POST /lint/accounts [] => {"events":0}
North POST /lint/transfers [{},{"id":"1","amount":1}] => 400 Bad Request: {"error":"bad_field",
  "event":2,"field":"amount","want":"a string of decimal digits, with no zero in front, below 2^128"}
North POST /lint/accounts [{"amount":"1"}] => 400 Bad Request: {"error":"bad_field","event":1,
  "field":"amount","want":"known fields only"}
North detail /lint/transfers [{"id":"1"] => 400 Bad Request: {"error":"body_not_json","want":"JSON"}
North@9 POST /accounts/lookup [] => {"accounts":[],"clock":"4"}
North@9 POST /transfers/lookup ["1"] => {"clock":"4","transfers":[]}
North GET /lint/transfers => bad_method 405 Method Not Allowed
South POST /lint/transfers [] => unknown_key 401 Unauthorized
South POST /lint/accounts no list => unknown_key 401 Unauthorized

# at the path of the console
North POST / => bad_method 405 Method Not Allowed
North GET /?x => no_route 404 Not Found

# histories
North POST /history/balances {"account_id":"1","flags":3,"limit":10} => no_history 409 Conflict
North POST /history/balances {"account_id":"9","flags":3,"limit":10} => no_account 404 Not Found
North GET /statement/9 => no_account 404 Not Found

# a key with a digit too few, and one that no firm has
Short POST /transfers [] => unknown_key 401 Unauthorized
Short POST /transfers no list => unknown_key 401 Unauthorized
South POST /transfers [] => unknown_key 401 Unauthorized
South POST /transfers no list => unknown_key 401 Unauthorized"#;

#[test]
fn refuses_messages(rt: HostRuntime) -> Result<(), Fail> {
    play_all(&rt, rt.alloc(), BASE, REFUSALS)
}
