//! Want of memory. To be run with each allocation refused in turn (`make alloc`).
use super::scripts::{Answers, exchange, joined};
use crate::tests::firms::Firms;
use crate::tests::messages::{FIRST, UNAVAILABLE};
use ledger_http::Reply;
use std::alloc::Global;
use std::process::Abort;

const STEPS: &str = r#"North base => clock 4: 0@1 0@2 0@3 0@4
North transfers 100: 1>2 70 flags=3; 101: post=100 MAX => clock 6: 0@5 0@6
North GET /statement/1 => csv 5,100,debit,pending,70,70,0,0,0 6,101,debit,post,70,0,70,0,0
North POST /pending/lookup ["100"]
   => {"clock":"6","pending":[{"due":"0","id":"100","state":"posted"}]}
North POST /lint/transfers [{"id":"1"}] => {"events":1}
North POST /query/accounts {"limit":1,"timestamp_min":"4"} => {"accounts":[{"code":10,
  "credits_pending":"0","credits_posted":"0","debits_pending":"0","debits_posted":"0","flags":0,
  "id":"4","ledger":7,"timestamp":"4","user_data_128":"0","user_data_32":0,
  "user_data_64":"0"}],"clock":"6","next":"5"}"#;

/// Firms that are asked again where memory runs out. Nothing has changed then.
#[derive(Drop)]
struct AskedAgain(Firms);

impl Answers for AskedAgain {
    fn answer(&mut self, alloc: Global, bytes: &[u8], moment: u64) -> Reply {
        let reply = self.0.answer(alloc, bytes, moment);
        if reply.bytes() != UNAVAILABLE.as_bytes() {
            return reply;
        }
        self.0.answer(alloc, bytes, moment)
    }
}

/// Each message is answered, at the latest when it is sent again, unless there is no memory for it
/// or for what is wanted.
fn answers_at_last(rt: &impl Abort, alloc: Global) -> Option<()> {
    let steps = joined(alloc, STEPS).ok()?;
    let mut firms = AskedAgain(Firms::with(alloc, &[FIRST]).ok()?);
    for line in steps.lines() {
        exchange(rt, alloc, &mut firms, line).ok()?;
    }
    Some(())
}

#[test]
fn survives_want_of_memory(rt: HostRuntime) {
    let _ = answers_at_last(&rt, rt.alloc());
}
